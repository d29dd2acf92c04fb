// One read of a collect: the register is added, and the last read ends the collect.
// Relies on collect and finish; `advance` relies on it.
ghost use Rattle.std.specs.Prelude.{◌≡◌, ◌+◌, ◌<◌, ltb};
ghost use Rattle.model.specs.Listing.{flag_of};
ghost use Rattle.collect.specs.Collected.{turn_of};
ghost use Rattle.archipelago.specs.Advanced.{MovesReading, Reads, passing};

use crate::Moved;
use crate::finish::{finish, stay};
use collect::{Turn, see};
use model::{Record, Register, StepAnswer};

pub fn read(turn: Turn, n: u8, k: u8, station: Record, register: Register) -> Moved
    requires reads { Reads (turn_of turn (flag_of station.flag)) n station }
    requires island_lt_k { station.island < k }
    ensures { MovesReading (turn_of turn (flag_of station.flag)) n k station register result }
{
    let next = see(turn, station, register);
    if goes_on(n, station.position) {
        return pass(next);
    }
    finish(turn, k, next)
}

// Positions are read in rising order; the collect goes on while one is left.
fn goes_on(n: u8, position: u8) -> bool
    requires { position < n }
    ensures { result ≡ ltb (position + 1) n }
{
    position + 1 < n
}

fn pass(station: Record) -> Moved
    requires { station.position < 255 }
    ensures { result ≡ passing station }
{
    let next = Record {
        position: station.position + 1,
        ..station
    };
    stay(next, StepAnswer::Read { filled: false })
}
