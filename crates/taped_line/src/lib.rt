// One line of a sheet taped: the steps of a `steps` line and of a `rounds` line, and nothing for any other line, which is
// played.
// Relies on items run, on items and rounds taped and on the player of a line; the algorithm's own line and the tape of a sheet
// rely on it.
#![tactic(auto)]

ghost use Rattle.std.specs.Prelude.{◌≡◌};
ghost use Rattle.std.proofs.Math.Option.{none};
ghost use Rattle.model.specs.Calls.{board_refusal};
ghost use Rattle.model.specs.Sheet.{play_line};
ghost use Rattle.line_run.specs.LineRuns.{LineCounts};
ghost use Rattle.line_rounds.specs.LineRounds.{LineHas};
ghost use Rattle.taped_line.specs.TapedLines.{Room, IsRead, Passable, LineCallsTaped, LinePassed, LineTaped};

use lexer::known::known_number;
use line_run::run_items;
use model::refusal::Refusal;
use player::line::play_line;
use rounds::refusing::rounds_refusal;
use sheet::form::{LineForm, read_line};
use soundness::board::check_board;
use taped_items::tape_items;
use taped_rounds::tape_rounds_at;
use taping::Taped;

// How many bytes of the memory are the board that was laid last, and what is still to do of the tape.
#[derive(Clone, Copy)]
pub struct TapedLine {
    pub laid: usize,
    pub taped: Taped,
}

// A line with no more steps than there are lines to pass over, on a sound board: none of its steps is wanted, so that it is
// run, which takes less than half the time of taping it.
fn pass_items(board: &mut [u8], line: &[u8], at: usize, taped: Taped) -> Taped
    requires { (board_refusal board.old none ≡ none) × Passable line.now at taped }
    ensures { LinePassed line.now board.old taped result board.new }
{
    let run = run_items(board, line, at);
    Taped {
        left: taped.left - run.value as usize,
        ..taped
    }
}

// A line that was read as `steps` with its items from `at` on and that count, on a lent board. One that is refused adds nothing.
#[tactic(auto, using(crate::proofs::Laws::Passed::with_buffer))]
fn steps_on(
    board: &mut [u8],
    line: &[u8],
    at: usize,
    count: u32,
    out: &mut [u8],
    taped: Taped,
) -> Taped
    requires { LineCounts line.now at count × Room out.old taped }
    ensures { LineCallsTaped line.now board.old out.old taped result board.new out.new }
{
    if 65536 < count || check_board(board).is_err() {
        return taped;
    }
    let steps = count as usize;
    if steps <= taped.left && 0 < taped.room {
        return pass_items(board, line, at, taped);
    }
    tape_items(board, line, at, out, taped).value
}

// A line that was read as `rounds`, for which a board must have `needs` stations.
#[tactic(auto, using(crate::proofs::Laws::OnBoard::round_lines))]
fn rounds_on(
    board: &mut [u8],
    line: &[u8],
    at: usize,
    rounds: usize,
    needs: u8,
    out: &mut [u8],
    taped: Taped,
) -> Taped
    requires { LineHas line.now at rounds needs × Room out.old taped }
    ensures { LineCallsTaped line.now board.old out.old taped result board.new out.new }
{
    if rounds_refusal(board, needs).is_err() {
        return taped;
    }
    let most = known_number(line, at + 1);
    tape_rounds_at(board, line, most.next, out, taped)
}

// On the part of the memory that the board is; where none was laid, the part is empty and refuses every step.
fn tape_steps(
    memory: &mut [u8],
    laid: usize,
    line: &[u8],
    at: usize,
    count: u32,
    out: &mut [u8],
    taped: Taped,
) -> TapedLine
    requires { LineCounts line.now at count × Room out.old taped }
    ensures { LineTaped line.now laid memory.old out.old taped result memory.new out.new }
{
    let part = laid.min(memory.len());
    let taped = steps_on(&mut memory[..part], line, at, count, out, taped);
    TapedLine { laid, taped }
}

fn tape_rounds(
    memory: &mut [u8],
    laid: usize,
    line: &[u8],
    at: usize,
    rounds: usize,
    needs: u8,
    out: &mut [u8],
    taped: Taped,
) -> TapedLine
    requires { LineHas line.now at rounds needs × Room out.old taped }
    ensures { LineTaped line.now laid memory.old out.old taped result memory.new out.new }
{
    let part = laid.min(memory.len());
    let taped = rounds_on(&mut memory[..part], line, at, rounds, needs, out, taped);
    TapedLine { laid, taped }
}

// A line that takes no step.
fn play_on(memory: &mut [u8], laid: usize, line: &[u8], taped: Taped) -> TapedLine
    ensures taped { result.taped ≡ taped }
    ensures laid { result.laid ≡ (play_line laid memory.old line.now).laid }
    ensures memory { memory.new ≡ (play_line laid memory.old line.now).memory }
{
    let played = play_line(line, laid, memory);
    TapedLine {
        laid: played.laid,
        taped,
    }
}

// A line as what it was read as, on a memory of any content and length.
#[tactic(auto, using(crate::proofs::Laws::Played::reading))]
pub fn tape_read(
    line: &[u8],
    form: Result<LineForm, Refusal>,
    laid: usize,
    memory: &mut [u8],
    out: &mut [u8],
    taped: Taped,
) -> TapedLine
    requires { IsRead form line.now × Room out.old taped }
    ensures { LineTaped line.now laid memory.old out.old taped result memory.new out.new }
{
    let Ok(form) = form else {
        return play_on(memory, laid, line, taped);
    };
    match form {
        LineForm::Steps { at, count } => tape_steps(memory, laid, line, at, count, out, taped),
        LineForm::Rounds { at, rounds, needs } => {
            tape_rounds(memory, laid, line, at, rounds, needs, out, taped)
        }
        _ => play_on(memory, laid, line, taped),
    }
}

// A line of any content and length, without its LF.
pub fn tape_line(
    line: &[u8],
    laid: usize,
    memory: &mut [u8],
    out: &mut [u8],
    taped: Taped,
) -> TapedLine
    requires { Room out.old taped }
    ensures { LineTaped line.now laid memory.old out.old taped result memory.new out.new }
{
    let form = read_line(line);
    tape_read(line, form, laid, memory, out, taped)
}
