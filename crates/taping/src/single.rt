// One single step of a station taped, and so many of it, on a board that is known to be sound.
// Relies on the step of a sound board and on the writer of a tape line; the items and the rounds of a line rely on it.
ghost use Rattle.std.specs.Prelude.{◌≡◌, ◌+◌, ◌≤◌, length, replicate};
ghost use Rattle.std.proofs.Math.Option.{none};
ghost use Rattle.model.specs.Bytes.{splice};
ghost use Rattle.model.specs.Calls.{board_refusal, step_on};
ghost use Rattle.taping.specs.Taping.{taping, taped_one, taped_steps, step_line, slot, Ready};

use crate::Taped;
use line_writer::line::Line;
use stepping::going::is_going;
use stepping::repeated::step_counted;
use stepping::sound_step::step_on;
use tape_writer::entry_line;

// The text of a line put into the buffer from `at` on.
#[tactic(auto, using(crate::proofs::Laws::PutIn::put_back))]
fn put_in(out: &mut [u8], at: usize, line: &Line)
    requires { at + length line.now ≤ length out.old }
    ensures { out.new ≡ splice at line.now out.old }
{
    out[at..at + line.len()].copy_from_slice(line.as_slice());
}

// One step of a station, and its line put into the buffer from `at` on, with the line's length. A function that holds a line clears
// its bytes as it begins: so this is one of its own, and steps that are passed over do not pay for it.
#[tactic(auto, using(crate::proofs::Laws::Single::writing), unfolding(crate::specs::Taping::slot))]
fn step_written(board: &mut [u8], station: u8, out: &mut [u8], at: usize) -> usize
    requires sound { board_refusal board.old none ≡ none }
    requires room { at + slot ≤ length out.old }
    ensures stepped { board.new ≡ (step_on station board.old).bytes }
    ensures put { out.new ≡ splice at (step_line station board.old) out.old }
    ensures counted { result ≡ length (step_line station board.old) }
{
    let answer = step_on(board, station);
    let line = entry_line(station, answer);
    put_in(out, at, &line);
    line.len()
}

// Where no more lines are wanted nothing is done. A line that is passed over is not built, and neither is the answer. A step
// that would be refused is not asked for: its answer would be built only to be thrown away.
#[tactic(auto, using(crate::proofs::Laws::Single::one_step), unfolding(crate::specs::Taping::slot))]
pub fn tape_step(board: &mut [u8], station: u8, out: &mut [u8], taped: Taped) -> Taped
    requires { Ready (taping board.old out.old taped) }
    ensures { taping board.new out.new result ≡ taped_one station (taping board.old out.old taped) }
{
    if taped.room == 0 {
        return taped;
    }
    if 0 < taped.left {
        let taken = step_counted(board, station) as usize;
        return Taped {
            left: taped.left - taken,
            ..taped
        };
    }
    if is_going(board, station) {
        let count = step_written(board, station, out, taped.len);
        return Taped {
            left: 0,
            room: taped.room - 1,
            len: taped.len + count,
        };
    }
    taped
}

// The steps of one station. A station that is idle, decided or spent stays so, and all of its steps leave everything as it
// is. A step that neither passes over nor puts in a line was refused, or no line is wanted any more: so it is with the steps that
// are left, which are passed over.
#[tactic(auto, using(crate::proofs::Laws::Turn::turning))]
pub fn tape_turn(board: &mut [u8], station: u8, steps: usize, out: &mut [u8], taped: Taped) -> Taped
    requires { Ready (taping board.old out.old taped) }
    ensures { taping board.new out.new result ≡ taped_steps (replicate steps station) (taping board.old out.old taped) }
{
    if !is_going(board, station) {
        return taped;
    }
    let mut done = taped;
    for _ in 0..steps {
        let next = tape_step(board, station, out, done);
        if next == done {
            return next;
        }
        done = next;
    }
    done
}
