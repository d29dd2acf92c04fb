// What rounds ask of a board, as one number: the stations it must have, or 255, which no board has, for rounds that no
// board takes. It knows no board and no line.
// Relies on nothing of a board; the reader of a line's rounds and the lent rounds rely on it.
#![tactic(auto)]

ghost use Rattle.std.specs.Prelude.{◌≡◌, max};
ghost use Rattle.halts.specs.Needs.{climb, closed};

// More stations than any board has.
pub const NO_BOARD: u8 = 255;

// A round's stations up to `last`, and one station more: strictly rising stations need their last one.
#[tactic(auto, unfolding(crate::specs::Needs::climb))]
pub fn climbed(last: u8, station: u8) -> u8
    ensures { result ≡ climb last station }
{
    if last < station { station } else { NO_BOARD }
}

// A whole round of `count` stations that climbs to `last`, where it may name `most` stations.
#[tactic(auto, unfolding(crate::specs::Needs::closed))]
pub fn round_needs(last: u8, count: usize, most: u8) -> u8
    ensures { result ≡ closed last count most }
{
    if count <= usize::from(most) {
        last
    } else {
        NO_BOARD
    }
}

// What two things need together.
pub fn larger(a: u8, b: u8) -> u8
    ensures { result ≡ max a b }
{
    a.max(b)
}
