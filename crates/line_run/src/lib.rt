// The items of a `steps` line, run as they stand in the line: a list of items and an item call each other, as their readers
// do, so that no buffer holds the steps and the stack is bounded by the depth of the brackets.
// Relies on the step of a sound board and on the reader of a known number: the line was read before, so that nothing here can
// miss. The player of a line and the tape of one rely on it.
#![tactic(auto)]

ghost use Rattle.std.specs.Prelude.{◌≡◌};
ghost use Rattle.std.proofs.Math.Option.{none};
ghost use Rattle.model.specs.Calls.{board_refusal};
ghost use Rattle.line_run.specs.LineRuns.{ItemRunnable, ItemsRunnable, ItemRuns, ItemsRun, LineCounts, RunsLine};

use lexer::At;
use lexer::known::known_number;
use model::Ran;
use model::refusal::Refusal;
use soundness::board::check_board;
use stepping::repeated::step_counted;

// The item at `at`: the steps taken, and the place after it. A repeat that takes no step leaves the board as it was, and so would
// every later one: they are passed over, so that a line costs no more than the steps that it takes.
#[cycle(run_item_run_items)]
fn run_item(board: &mut [u8], line: &[u8], at: usize) -> At<u32>
    requires { (board_refusal board.old none ≡ none) × ItemRunnable line.now at }
    ensures { ItemRuns line.now at board.old result board.new }
{
    if line[at] != b'(' {
        let station = known_number(line, at);
        return At {
            value: step_counted(board, station.value as u8),
            next: station.next,
        };
    }
    let word = b"(times ";
    let times = known_number(line, at + word.len());
    let inner = times.next;
    let mut total = 0;
    let mut next = inner;
    for _ in 0..times.value {
        let run = run_items(board, line, inner);
        next = run.next;
        if run.value == 0 {
            break;
        }
        total += run.value;
    }
    At { value: total, next }
}

// The items from `at` on, up to the closing bracket.
#[cycle(run_item_run_items)]
pub fn run_items(board: &mut [u8], line: &[u8], at: usize) -> At<u32>
    requires { (board_refusal board.old none ≡ none) × ItemsRunnable line.now at }
    ensures { ItemsRun line.now at board.old result board.new }
{
    let mut total = 0;
    let mut place = at;
    while line[place] == b' ' {
        let run = run_item(board, line, place + 1);
        total += run.value;
        place = run.next;
    }
    At {
        value: total,
        next: place + 1,
    }
}

// A line that was read as `steps` with its items from `at` on and that count, on a lent board.
#[tactic(auto, using(crate::proofs::Laws::Counting::lines), unfolding(model::specs::Told::verdict))]
pub fn run_line(board: &mut [u8], line: &[u8], at: usize, count: u32) -> Result<Ran, Refusal>
    requires { LineCounts line.now at count }
    ensures { RunsLine line.now board.old result board.new }
{
    if 65536 < count {
        return Err(Refusal::TooManySteps);
    }
    check_board(board)?;
    let taken = run_items(board, line, at).value;
    Ok(Ran {
        taken,
        passed: count - taken,
    })
}
