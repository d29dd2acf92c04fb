// A sheet line by line: refusal 1, where each line ends, and what it prints with its LF.
// Relies on the player of one line; the program relies on it.
#![tactic(auto)]

ghost use Rattle.std.specs.Prelude.{◌≡◌, ◌<◌, [], ◌∷◌, ◌++◌, length};
ghost use Rattle.answers.specs.Answered.{Answers, answer_at};

use answer_writer::refused_line;
use line_writer::line::Line;
use model::refusal::Refusal;
use player::line::play_line;
use scan::find;

// What is printed next, the board in force afterwards, and the place of the sheet to go on from.
#[derive(Clone, Copy)]
pub struct SheetAnswer {
    pub line: Line,
    pub laid: usize,
    pub next: usize,
}

// A line with the LF that ends it.
fn ended(line: Line) -> Line
    requires { length line < 512 }
    ensures { result ≡ line ++ 10 ∷ [] }
{
    let mut whole = line;
    whole.push(b'\n');
    whole
}

// The answer to the line that starts at `at`; an empty one at the sheet's end.
pub fn next_answer(sheet: &[u8], at: usize, laid: usize, memory: &mut [u8]) -> SheetAnswer
    ensures { Answers (answer_at sheet.now at laid memory.old) result memory.new }
{
    if sheet.len() <= at {
        return SheetAnswer {
            line: Line::new(),
            laid,
            next: at,
        };
    }
    if 32768 < sheet.len() {
        return SheetAnswer {
            line: ended(refused_line(Refusal::SheetTooLong)),
            laid,
            next: sheet.len(),
        };
    }
    let end = find(sheet, at, b'\n');
    let played = play_line(&sheet[at..end], laid, memory);
    SheetAnswer {
        line: ended(played.line),
        laid: played.laid,
        next: end + 1,
    }
}
