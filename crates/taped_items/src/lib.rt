// The items of a `steps` line, taped as they stand in the line: a list of items and an item call each other, as they do where
// the line is run, so that no buffer holds the steps and the stack is bounded by the depth of the brackets.
// Relies on one step taped and on the reader of a known number: the line was read before, so that nothing here can miss. The
// tape of a line relies on it.
#![tactic(auto)]

ghost use Rattle.item_walks.specs.ItemWalks.{ItemReads, ItemsRead};
ghost use Rattle.taping.specs.Taping.{taping, Ready};
ghost use Rattle.taped_items.specs.TapedItems.{ItemTapes, ItemsTape};

use lexer::At;
use lexer::known::known_number;
use taping::Taped;
use taping::single::tape_step;

// The item at `at`.
#[cycle(tape_item_tape_items)]
fn tape_item(board: &mut [u8], line: &[u8], at: usize, out: &mut [u8], taped: Taped) -> At<Taped>
    requires { Ready (taping board.old out.old taped) × ItemReads line.now at }
    ensures { ItemTapes line.now at (taping board.old out.old taped) result board.new out.new }
{
    if line[at] != b'(' {
        let station = known_number(line, at);
        return At {
            value: tape_step(board, station.value as u8, out, taped),
            next: station.next,
        };
    }
    let word = b"(times ";
    let times = known_number(line, at + word.len());
    let inner = times.next;
    let mut done = taped;
    let mut next = inner;
    for _ in 0..times.value {
        let part = tape_items(board, line, inner, out, done);
        next = part.next;
        // A repeat that leaves as much to do as before changed nothing, and neither would a later one.
        if part.value == done {
            break;
        }
        done = part.value;
    }
    At { value: done, next }
}

// The items from `at` on, up to the closing bracket.
#[cycle(tape_item_tape_items)]
pub fn tape_items(
    board: &mut [u8],
    line: &[u8],
    at: usize,
    out: &mut [u8],
    taped: Taped,
) -> At<Taped>
    requires { Ready (taping board.old out.old taped) × ItemsRead line.now at }
    ensures { ItemsTape line.now at (taping board.old out.old taped) result board.new out.new }
{
    let mut done = taped;
    let mut place = at;
    while line[place] == b' ' {
        let part = tape_item(board, line, place + 1, out, done);
        done = part.value;
        place = part.next;
    }
    At {
        value: done,
        next: place + 1,
    }
}
