// Whose line is the culprit's, where two tapes differ: the sheet is played up to the algorithm's own line with that number, and
// no further.
// Relies on the tape of a line; the comparison of tapes relies on it.
ghost use Rattle.std.specs.Prelude.{◌≡◌, ◌≤◌};
ghost use Rattle.std.proofs.Math.Option.{some};
ghost use Rattle.model.specs.Tape as tape;
ghost use Rattle.model.specs.Tape.{line_at, own_lines};
ghost use Rattle.model.specs.Told.{tap_told};

use check::same;
use lines::line_end;
use model::Tap;
use taped_line::tape_line;
use taping::Taped;

// The first tape's line beside the algorithm's own.
fn blamed(line: &[u8], own: &[u8]) -> Tap
    ensures { tap_told result ≡ tape.culprit (some own.now) (some line.now) }
{
    if !same(line, own) {
        return Tap::First;
    }
    Tap::Second
}

// `line` is the first tape's line with the number. The algorithm's own line is put into `own` with its LF, for which the largest
// line has room.
pub fn culprit_of(sheet: &[u8], number: usize, line: &[u8]) -> Tap
    requires { 1 ≤ number }
    ensures { tap_told result ≡ tape.culprit (line_at number (own_lines sheet.now)) (some line.now) }
{
    let mut memory = [0u8; 16904];
    let mut own = [0u8; 56];
    let mut laid = 0;
    let mut left = number - 1;
    let mut at = 0;
    while at < sheet.len() {
        let end = line_end(sheet, at);
        let wanted = Taped {
            left,
            room: 1,
            len: 0,
        };
        let next = tape_line(&sheet[at..end], laid, &mut memory, &mut own, wanted);
        if next.taped.room == 0 {
            let len = next.taped.len - 1;
            return blamed(line, &own[..len]);
        }
        laid = next.laid;
        left = next.taped.left;
        at = end + 1;
    }
    Tap::First
}
