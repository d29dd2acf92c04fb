// The line of a tape written: the station, the kind of its step with its fields, and an LF.
// Relies on the line and on a word with a number and a figure; one step taped relies on it.
#![tactic(auto)]

ghost use Rattle.std.specs.Prelude.{◌≡◌, ◌+◌, ◌≤◌, [], ◌∷◌, ◌++◌, length};
ghost use Rattle.model.specs.Tape.{kind_text, entry_text};
ghost use Rattle.model.specs.Told.{told};
ghost use Rattle.tape_writer.specs.Writing.{end_bytes};

use line_writer::line::Line;
use model::StepAnswer;
use shown::status::push_standing;

// A step that ended a collect: its word with the island or the flag and the figure, and the collect's total last. The word's
// length is known as it is compiled, so that it is copied by stores and by no call.
#[tactic(auto, unfolding(crate::specs::Writing::end_bytes, model::specs::Show::text, model::specs::Show::text_from))]
fn write_end<const N: usize>(line: &mut Line, word: &[u8; N], field: u8, figure: i32, total: u8)
    requires { length line.old + length (end_bytes word.now field figure total) ≤ 512 }
    ensures { line.new ≡ line.old ++ end_bytes word.now field figure total }
{
    push_standing(line, word, field, figure);
    line.push(b' ');
    line.push_decimal(u32::from(total));
    line.push(b')');
}

// The kind and its fields. A refused step has none.
#[tactic(auto, using(crate::proofs::Laws::Writing::kinds), unfolding(model::specs::Show::text, model::specs::Show::text_from))]
fn write_kind(line: &mut Line, answer: StepAnswer)
    requires { length line.old + length (kind_text (told answer).did (told answer).met) ≤ 512 }
    ensures { line.new ≡ line.old ++ kind_text (told answer).did (told answer).met }
{
    match answer {
        StepAnswer::Wrote => line.push_word(b"wrote)"),
        StepAnswer::Read { filled: true } => line.push_word(b"read 1)"),
        StepAnswer::Read { filled: false } => line.push_word(b"read 0)"),
        StepAnswer::Went {
            island,
            total,
            figure,
        } => write_end(line, b"went", island, figure, total),
        StepAnswer::Marked {
            flag,
            total,
            figure,
        } => write_end(line, b"marked", flag, figure, total),
        StepAnswer::Adopted {
            island,
            total,
            figure,
        } => write_end(line, b"adopted", island, figure, total),
        StepAnswer::Decided {
            island,
            total,
            figure,
        } => write_end(line, b"decided", island, figure, total),
        StepAnswer::Spent {
            island,
            total,
            figure,
        } => write_end(line, b"spent", island, figure, total),
        StepAnswer::Refused { .. } => {}
    }
}

// The line of a step that a station took, with its LF.
#[tactic(auto, using(crate::proofs::Laws::WritingLength::lengths), unfolding(model::specs::Tape::entry_text, model::specs::Show::text, model::specs::Show::text_from))]
pub fn entry_line(station: u8, answer: StepAnswer) -> Line
    ensures { result ≡ entry_text (record { station = station; report = told answer }) ++ 10 ∷ [] }
{
    let mut line = Line::new();
    line.push(b'(');
    line.push_decimal(u32::from(station));
    line.push(b' ');
    write_kind(&mut line, answer);
    line.push(b'\n');
    line
}
