// One step of one station: the register it touches, the listing's move, and what is put back.
// Relies on the codec and on the stepper of a lent record; the steps of a sound board rely on it.
#![tactic(auto)]

ghost use Rattle.std.specs.Prelude.{◌≡◌, ◌+◌, ◌≤◌, ◌<◌, get_or, length};
ghost use Rattle.model.specs.Filled.{filled_in, report};
ghost use Rattle.model.specs.Layout.{register_value};
ghost use Rattle.model.specs.Told.{told};
ghost use Rattle.codec.specs.Parts.{met_read};
ghost use Rattle.archipelago.specs.Advanced.{Ready};
ghost use Rattle.accessing.specs.Accessed.{Touches, Accesses, OnSize, Stands, Known, StepsOn};

use codec::places::register_offset;
use codec::records::{count_met, count_step, put_collected, put_phase, put_started, station_at};
use codec::registers::{put_register, register_at};
use model::phase::{READ_A, READ_M, WRITE_A, WRITE_B, WRITE_M};
use model::{Record, Register, StepAnswer};
use stepper::move_station;

// The offset of the one register that the station with index j touches next: its own when it writes, the next position
// when it reads.
fn touched(n: u8, k: u8, j: usize, station: Record) -> usize
    requires { Ready n k station × (n ≤ 16) × (k ≤ 64) × (j < n) }
    ensures { Touches n j station result }
{
    let stations = usize::from(n);
    let island = usize::from(station.island);
    let next = usize::from(station.position);
    match station.phase {
        WRITE_M => register_offset(stations, 0, j),
        READ_M => register_offset(stations, 0, next),
        WRITE_A => register_offset(stations, 1 + 2 * island, j),
        READ_A => register_offset(stations, 1 + 2 * island, next),
        WRITE_B => register_offset(stations, 2 + 2 * island, j),
        _ => register_offset(stations, 2 + 2 * island, next),
    }
}

// The filled registers that the collect of the record at `at` has met, with the one that it reads last. The count is at most
// the position, so that the sum cannot wrap.
fn total_with(board: &[u8], at: usize, register: Register) -> u8
    requires { (at + 24 ≤ length board.now) × (met_read at board.now < 255) }
    ensures { result ≡ met_read at board.now + filled_in (register_value register) }
{
    board[at + 6] + u8::from(register.mark != 0)
}

// A move's answer with the total of the collect that it ended. The other cases have none, and are made anew too: an answer that
// is handed back whole is put together in one number, six instructions more in every step.
fn with_total(answer: StepAnswer, total: u8) -> StepAnswer
    ensures { told result ≡ report (told answer).did (told answer).met total }
{
    match answer {
        StepAnswer::Wrote => StepAnswer::Wrote,
        StepAnswer::Read { filled } => StepAnswer::Read { filled },
        StepAnswer::Went { island, figure, .. } => StepAnswer::Went {
            island,
            total,
            figure,
        },
        StepAnswer::Marked { flag, figure, .. } => StepAnswer::Marked {
            flag,
            total,
            figure,
        },
        StepAnswer::Adopted { island, figure, .. } => StepAnswer::Adopted {
            island,
            total,
            figure,
        },
        StepAnswer::Decided { island, figure, .. } => StepAnswer::Decided {
            island,
            total,
            figure,
        },
        StepAnswer::Spent { island, figure, .. } => StepAnswer::Spent {
            island,
            total,
            figure,
        },
        StepAnswer::Refused { number } => StepAnswer::Refused { number },
    }
}

// The access of the station with index j, whose record at `at` has been read. Only what the move changed is put back: after
// a write the phase, in the middle of a collect what it has seen, and at its end, where the station is at position 0 again,
// all but the proposal and the steps. The other bytes of the record stand already. A filled register that is read is counted
// here, beside the move, which knows nothing of it.
fn access(board: &mut [u8], n: u8, k: u8, j: usize, at: usize, station: Record) -> StepAnswer
    requires { Ready n k station × OnSize n k j board.old × Stands n k j at station board.old }
    ensures { Accesses n k j at station board.old result board.new }
{
    let place = touched(n, k, j, station);
    let register = register_at(board, place);
    let moved = move_station(n, k, station, register);
    if let Some(written) = moved.written {
        put_register(board, place, written);
        put_phase(board, at, moved.station);
        return StepAnswer::Wrote;
    }
    if moved.station.position == 0 {
        let total = total_with(board, at, register);
        put_started(board, at, moved.station);
        return with_total(moved.answer, total);
    }
    put_collected(board, at, moved.station);
    if register.mark == 0 { // empty: not counted
        return StepAnswer::Read { filled: false };
    }
    count_met(board, at);
    StepAnswer::Read { filled: true }
}

// One step of a station that goes on, by its place: its access, whatever kind it is of, and one more in its steps. The
// record is read here: several functions call this one, so that it stays a call, and a record handed over would go through
// memory, as a struct of the four numbers would. A sound board has room for one step more, so the sum cannot wrap.
pub fn step_going(board: &mut [u8], n: u8, k: u8, j: usize, at: usize) -> StepAnswer
    requires { Known n k j at board.old × (1 ≤ get_or board.old at 0) × (get_or board.old at 0 ≤ 6) }
    ensures { StepsOn (j + 1) board.old result board.new }
{
    let station = station_at(board, at);
    let answer = access(board, n, k, j, at, station);
    count_step(board, at);
    answer
}
