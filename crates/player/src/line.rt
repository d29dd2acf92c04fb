// One line of a run sheet on a lent memory: refusals 2 to 6, then the call's own, and the printed line by value.
// Relies on the reader of lines, the run of items, the play of rounds, the proposals of pairs, the calls and the lines they
// print; the answers of a sheet and the C interface rely on it.
ghost use Rattle.std.specs.Prelude.{◌≡◌};
ghost use Rattle.model.specs.Forms as forms;
ghost use Rattle.model.specs.Sheet.{play_line, play_form};
ghost use Rattle.line_run.specs.LineRuns.{LineCounts};
ghost use Rattle.line_rounds.specs.LineRounds.{LineHas};
ghost use Rattle.line_proposals.specs.LinePairs as linePairs;
ghost use Rattle.player.specs.Played.{Plays, PlaysForm, PartOf, printed, PlaysSteps, PlaysRounds, PlaysProposals};

use answer_writer::{laid_line, played_line, proposed_line, ran_line, refused_line, together_line};
use calls::{lay, propose, show};
use codec::places::board_length;
use line_proposals::propose_line;
use line_rounds::play_rounds_line;
use line_run::run_line;
use line_writer::line::Line;
use model::refusal::Refusal;
use sheet::form::{LineForm, read_line};

// What is printed, without its LF, and how many bytes of the memory are the board that was laid last; 0 is none.
#[derive(Clone, Copy)]
pub struct Played {
    pub line: Line,
    pub laid: usize,
}

// What a line prints that lays no board, or its refusal as a line.
fn told(answer: Result<Line, Refusal>, laid: usize) -> Played
    ensures line { result.line ≡ printed answer }
    ensures laid { result.laid ≡ laid }
{
    match answer {
        Ok(line) => Played { line, laid },
        Err(refusal) => Played {
            line: refused_line(refusal),
            laid,
        },
    }
}

// How much of the memory is lent to a call: the part that the board takes, or all of a shorter one.
fn board_part(laid: usize, len: usize) -> Result<usize, Refusal>
    ensures { PartOf laid len result }
{
    if laid == 0 {
        return Err(Refusal::NoBoardLaid);
    }
    Ok(laid.min(len))
}

#[tactic(auto, using(crate::proofs::Laws::Playing::board))]
fn play_board(memory: &mut [u8], laid: usize, n: u8, k: u8) -> Played
    ensures { Plays (play_form laid memory.old (forms.board n k)) result memory.new }
{
    let need = board_length(usize::from(n), usize::from(k));
    let part = need.min(memory.len());
    match lay(&mut memory[..part], n, k) {
        Ok(()) => Played {
            line: laid_line(n, k),
            laid: need,
        },
        Err(refusal) => told(Err(refusal), laid),
    }
}

#[tactic(auto, using(crate::proofs::Laws::Playing::proposal))]
fn play_proposal(memory: &mut [u8], laid: usize, station: u8, figure: i32) -> Result<Line, Refusal>
    ensures { PlaysForm (forms.propose station figure) laid memory.old result memory.new }
{
    let part = board_part(laid, memory.len())?;
    propose(&mut memory[..part], station, figure)?;
    Ok(proposed_line(station, figure))
}

#[tactic(auto, using(crate::proofs::Laws::Playing::steps))]
fn play_steps(
    memory: &mut [u8],
    laid: usize,
    line: &[u8],
    at: usize,
    count: u32,
) -> Result<Line, Refusal>
    requires { LineCounts line.now at count }
    ensures { PlaysSteps line.now laid memory.old result memory.new }
{
    let part = board_part(laid, memory.len())?;
    let ran = run_line(&mut memory[..part], line, at, count)?;
    Ok(ran_line(ran))
}

#[tactic(auto, using(crate::proofs::Laws::PlayingRounds::rounds_line))]
fn play_rounds(
    memory: &mut [u8],
    laid: usize,
    line: &[u8],
    at: usize,
    rounds: usize,
    needs: u8,
) -> Result<Line, Refusal>
    requires { LineHas line.now at rounds needs }
    ensures { PlaysRounds line.now laid memory.old result memory.new }
{
    let part = board_part(laid, memory.len())?;
    let played = play_rounds_line(&mut memory[..part], line, at, rounds, needs)?;
    Ok(played_line(played.rounds as u32, u32::from(played.decided)))
}

#[tactic(auto, using(crate::proofs::Laws::PlayingPairs::pairs))]
fn play_proposals(
    memory: &mut [u8],
    laid: usize,
    line: &[u8],
    at: usize,
    pairs: usize,
) -> Result<Line, Refusal>
    requires { linePairs.LineCounts line.now at pairs }
    ensures { PlaysProposals line.now laid memory.old result memory.new }
{
    let part = board_part(laid, memory.len())?;
    propose_line(&mut memory[..part], line, at)?;
    Ok(together_line(pairs as u32))
}

#[tactic(auto, using(crate::proofs::Laws::Playing::shown))]
fn play_show(memory: &[u8], laid: usize) -> Result<Line, Refusal>
    ensures { PlaysForm forms.show laid memory.now result memory.now }
{
    let part = board_part(laid, memory.len())?;
    show(&memory[..part])
}

// A line of any content and length, without its LF, on a memory of any content and length.
#[tactic(auto, using(crate::proofs::Laws::Reading::reading))]
pub fn play_line(line: &[u8], laid: usize, memory: &mut [u8]) -> Played
    ensures { Plays (play_line laid memory.old line.now) result memory.new }
{
    match read_line(line) {
        Err(refusal) => told(Err(refusal), laid),
        Ok(LineForm::Board { n, k }) => play_board(memory, laid, n, k),
        Ok(LineForm::Propose { station, figure }) => {
            told(play_proposal(memory, laid, station, figure), laid)
        }
        Ok(LineForm::Steps { at, count }) => {
            told(play_steps(memory, laid, line, at, count), laid)
        }
        Ok(LineForm::Show) => told(play_show(memory, laid), laid),
        Ok(LineForm::Rounds { at, rounds, needs }) => {
            told(play_rounds(memory, laid, line, at, rounds, needs), laid)
        }
        Ok(LineForm::Proposals { at, pairs }) => {
            told(play_proposals(memory, laid, line, at, pairs), laid)
        }
    }
}
