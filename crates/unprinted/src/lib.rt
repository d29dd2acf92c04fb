// A line of a run sheet that takes no step, played without the line that it prints: nothing is written that nobody reads.
// Relies on the calls and on the proposals of a line's pairs; nothing rests on it yet.
#![tactic(auto)]

ghost use Rattle.model.specs.Forms as forms;
ghost use Rattle.model.specs.Sheet.{play_form};
ghost use Rattle.line_proposals.specs.LinePairs.{LineHas};
ghost use Rattle.unprinted.specs.Done.{Done, PairsDone};

use calls::{lay, propose};
use codec::places::board_length;
use line_proposals::propose_line;

// What is handed back is how many bytes of the memory are the board that was laid last.
pub fn lay_unprinted(memory: &mut [u8], laid: usize, n: u8, k: u8) -> usize
    ensures { Done (play_form laid memory.old (forms.board n k)) result memory.new }
{
    let need = board_length(usize::from(n), usize::from(k));
    let part = need.min(memory.len());
    match lay(&mut memory[..part], n, k) {
        Ok(()) => need,
        Err(_) => laid,
    }
}

// Where no board was laid, nothing is done, and so where the call refuses.
pub fn propose_unprinted(memory: &mut [u8], laid: usize, station: u8, figure: i32)
    ensures { Done (play_form laid memory.old (forms.propose station figure)) laid memory.new }
{
    if laid == 0 {
        return;
    }
    let part = laid.min(memory.len());
    let _ = propose(&mut memory[..part], station, figure);
}

// The pairs of a line that was read as such, from `at` on.
pub fn propose_all_unprinted(memory: &mut [u8], laid: usize, line: &[u8], at: usize)
    requires { LineHas line.now at }
    ensures { PairsDone line.now laid memory.old memory.new }
{
    if laid == 0 {
        return;
    }
    let part = laid.min(memory.len());
    let _ = propose_line(&mut memory[..part], line, at);
}
