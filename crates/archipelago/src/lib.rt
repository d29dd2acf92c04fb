// The listing's one move on a station's fields: one access to one register. It sees no byte and no board.
// Relies on the model's declared types and on what a collect keeps; the stepper of a lent record relies on it.
#![tactic(auto)]

mod finish;
mod read;

ghost use Rattle.std.specs.Prelude.{◌≡◌, ◌+◌};
ghost use Rattle.archipelago.specs.Advanced.{Moves, Ready, writing};

use collect::Turn;
use model::marks::WRITTEN;
use model::phase::{READ_A, READ_B, READ_M, WRITE_A, WRITE_B, WRITE_M};
use model::{Record, Register, StepAnswer};
use read::read;

// The station after the move, the register that the move wrote, and the answer.
#[derive(Clone, Copy)]
pub struct Moved {
    pub station: Record,
    pub written: Option<Register>,
    pub answer: StepAnswer,
}

// `register` is the one that the station reads; a write does not look at it. The cases are the listing's, in its order:
// write and read m, write and read A, write and read B. The writes share one call, so that what they write stays in registers.
pub fn advance(n: u8, k: u8, station: Record, register: Register) -> Moved
    requires { Ready n k station }
    ensures { Moves n k station register result }
{
    let (next, mark, island) = match station.phase {
        WRITE_M => (READ_M, WRITTEN, station.island),
        READ_M => return read(Turn::M, n, k, station, register),
        WRITE_A => (READ_A, WRITTEN, 0),
        READ_A => return read(Turn::A, n, k, station, register),
        WRITE_B => (READ_B, station.flag, 0),
        _ => return read(Turn::B, n, k, station, register),
    };
    write(station, next, mark, island)
}

// The read phase of an array follows its write phase. The other fields of a write phase are zero already, as a read begins.
fn write(station: Record, phase: u8, mark: u8, island: u8) -> Moved
    requires { phase ≡ station.phase + 1 }
    ensures { result ≡ writing station mark island }
{
    Moved {
        station: Record { phase, ..station },
        written: Some(Register {
            mark,
            island,
            figure: station.carried,
        }),
        answer: StepAnswer::Wrote,
    }
}
