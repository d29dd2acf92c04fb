// Up to where all lines of a tape are step answers.
// Relies on the reader of a tape line; the comparison of tapes relies on it.
ghost use Rattle.tapes.specs.Tested.{Tested};

use lines::line_end;
use tape_reader::is_entry;

// The place of the first line that is none, or the tape's length.
pub fn entries_end(tape: &[u8]) -> usize
    ensures { Tested tape.now result }
{
    let mut at = 0;
    while at < tape.len() {
        let end = line_end(tape, at);
        if !is_entry(&tape[at..end]) {
            return at;
        }
        at = end + 1;
    }
    tape.len()
}
