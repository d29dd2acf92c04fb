// The set of the stations that a round suspends: entry i - 1 of an array says whether station i is in it.
// Relies on nothing; one round relies on it, and so does each reader of rounds.
ghost use Rattle.std.specs.Prelude.{◌≡◌, length};
ghost use Rattle.rounds.specs.Suspended.{Adds};

// One station more. A number that no board's station has leaves the set as it was.
#[tactic(auto, using(crate::proofs::Laws::Suspended::adding))]
pub fn suspend(halted: &mut [bool; 16], station: u8)
    requires { length halted.old ≡ 16 }
    ensures { Adds halted.old station halted.new }
{
    if matches!(station, 1..=16) {
        halted[usize::from(station) - 1] = true;
    }
}
