// The set of the station numbers that pairs have named so far: one flag for each number that a byte can be.
// Relies on nothing; pairs that are tried one after another rely on it.
ghost use Rattle.std.specs.Prelude.{◌≡◌, length};
ghost use Rattle.proposing.specs.Flags.{Names};

// One number more, and whether it was named before. A number that no board's station has is named all the same.
#[tactic(auto, using(crate::proofs::Laws::Flags::names_it))]
pub fn name_station(flags: &mut [bool; 256], station: u8) -> bool
    requires { length flags.old ≡ 256 }
    ensures { Names flags.old station flags.new result }
{
    let index = usize::from(station);
    let before = flags[index];
    flags[index] = true;
    before
}
