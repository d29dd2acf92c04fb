// A record's counts: its steps against the most that its phase, island and position allow, and the filled registers that its
// collect has met against its position.
// Relies on fields; records rely on it.
ghost use Rattle.std.specs.Prelude.{◌≡◌, ◌+◌, ◌≤◌, leb, length};
ghost use Rattle.model.specs.Layout.{record_value};
ghost use Rattle.model.specs.Sound.{steps_kept};
ghost use Rattle.record_soundness.specs.Groups.{met_pair};

use crate::fields::is_collecting;
use figures::pairs::pair_at;
use model::Record;

// What was met and the byte behind it, which is zero, as one number. One comparison is enough for both, since the position
// is a byte, and 0 outside of a collect.
pub fn met_sound(s: &[u8], at: usize, position: u8) -> bool
    requires { at + 24 ≤ length s.now }
    ensures { result ≡ leb (met_pair at s.now) position }
{
    pair_at(s, at + 6) <= u16::from(position)
}

// A turn is a write and n reads. The turns behind a station are three for each island that it has passed and those of its
// present pass; in a collect there are its write and the reads before its position besides. A count of 0 is within every
// bound, so that an idle station, whose count is 0, needs no test of its own.
#[tactic(auto, using(crate::proofs::Laws::Counts::bounds))]
pub fn steps_sound(f: Record, n: usize) -> bool
    requires { (n ≤ 16) × (f.phase ≤ 8) × (f.phase ≡ 0 → f.steps ≡ 0) }
    ensures { result ≡ steps_kept n f.steps (record_value f) }
{
    let steps = usize::from(f.steps);
    if steps == 0 {
        return true;
    }
    let turns = 3 * usize::from(f.island) + (usize::from(f.phase) - 1) / 2;
    let behind = turns * (n + 1);
    if is_collecting(f) {
        steps <= behind + 1 + usize::from(f.position)
    } else {
        steps <= behind
    }
}
