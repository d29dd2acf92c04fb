// The shape of a board: refusals 7 to 10, in one order where a board is laid and where one is tested, each with its ranges of n
// and K.
// Relies on the length of a board; laying and the board's test rely on it.
ghost use Rattle.std.specs.Prelude.{◌≡◌};
ghost use Rattle.model.specs.Calls.{ranges};
ghost use Rattle.soundness.specs.Shaped.{Shaped};

use codec::places::board_length;
use model::refusal::Refusal;

// Of a head, which may have two stations; a laying takes all of these but 2.
#[tactic(auto, unfolding(model::specs::Calls::ranges))]
pub fn stations_in_range(n: u8) -> bool
    ensures { result ≡ ranges.stations_in n }
{
    1 <= n && n <= 16
}

#[tactic(auto, unfolding(model::specs::Calls::ranges))]
pub fn islands_in_range(k: u8) -> bool
    ensures { result ≡ ranges.islands_in k }
{
    2 <= k && k <= 64
}

// The caller tells whether n and K are in its ranges.
#[tactic(auto, using(crate::proofs::Laws::Verdicts::shape_checked))]
pub fn shape_refusal(
    board: &[u8],
    n: u8,
    k: u8,
    stations: bool,
    islands: bool,
) -> Result<(), Refusal>
    ensures { Shaped n k stations islands board.now result }
{
    if board.len() < 8 {
        return Err(Refusal::TooShort);
    }
    if !stations {
        return Err(Refusal::StationsOutOfRange);
    }
    if !islands {
        return Err(Refusal::IslandsOutOfRange);
    }
    if board.len() != board_length(usize::from(n), usize::from(k)) {
        return Err(Refusal::WrongLength);
    }
    Ok(())
}
