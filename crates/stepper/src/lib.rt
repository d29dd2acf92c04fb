// A station's record, lent: the move of `archipelago`, made in place on the one record that is lent, so that no other record
// can be touched. Relies on `advance`, which does the work by value; the step of a board relies on `move_station`.
#![tactic(auto)]

ghost use Rattle.archipelago.specs.Advanced.{Moves, Ready};
ghost use Rattle.stepper.specs.InPlace.{with_station};

use archipelago::{Moved, advance};
use model::{Record, Register, StepAnswer};

// What a move leaves beside the record: the register that it wrote, and the answer.
#[derive(Clone, Copy)]
pub struct Access {
    pub written: Option<Register>,
    pub answer: StepAnswer,
}

// The record is read whole, moved by value, and stored whole.
fn advance_record(lent: &mut Record, n: u8, k: u8, register: Register) -> Access
    requires { Ready n k lent.old }
    ensures { Moves n k lent.old register (with_station lent.new result) }
{
    let before = *lent;
    let moved = advance(n, k, before, register);
    *lent = moved.station;
    Access {
        written: moved.written,
        answer: moved.answer,
    }
}

// The one lender. Its contract is by value and that of `advance`, so no caller handles a reference.
pub fn move_station(n: u8, k: u8, station: Record, register: Register) -> Moved
    requires { Ready n k station }
    ensures { Moves n k station register result }
{
    let mut own = station;
    let access = advance_record(&mut own, n, k, register);
    Moved {
        station: own,
        written: access.written,
        answer: access.answer,
    }
}
