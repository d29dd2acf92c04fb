// Two tapes line by line: the first number at which both have a line and these differ.
// Relies on where a line ends; the comparison of tapes relies on it.
ghost use Rattle.tapes.specs.Differences.{GapIs};

use check::same;
use lines::line_end;

// Where the tapes differ: the line's number, counted from 1, the place where it begins on both tapes, and where it ends on the first
// and on the second.
#[derive(Clone, Copy)]
pub struct Gap {
    pub number: usize,
    pub start: usize,
    pub first: usize,
    pub second: usize,
}

// None where all lines are alike up to the end of one tape. As long as they are, the next one begins at the same place on both.
pub fn first_difference(first: &[u8], second: &[u8]) -> Option<Gap>
    ensures { GapIs first.now second.now result }
{
    let mut number: usize = 0;
    let mut at = 0;
    while at < first.len() {
        if second.len() <= at {
            return None;
        }
        let first_end = line_end(first, at);
        let second_end = line_end(second, at);
        let next = first_end + 1;
        number += 1;
        if !same(&first[at..first_end], &second[at..second_end]) {
            return Some(Gap {
                number,
                start: at,
                first: first_end,
                second: second_end,
            });
        }
        at = next;
    }
    None
}
