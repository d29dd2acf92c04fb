// The lines that a run sheet's forms print, but for the stations of `(show)`.
// Relies on the writer of lines; the player of a line, the answers of a sheet and the program that compares tapes rely on it.
#![tactic(auto)]

ghost use Rattle.std.specs.Prelude.{◌≡◌, ◌++◌, ◌≤◌, length};
ghost use Rattle.model.specs.Calls.{ran};
ghost use Rattle.model.specs.Rounds.{played};
ghost use Rattle.model.specs.Sheet.{refused_text, laid_text, proposed_text, together_text, ran_text, played_text};
ghost use Rattle.model.specs.Show.{text, decimal};
ghost use Rattle.model.specs.Told.{number};

use line_writer::line::Line;
use model::Ran;
use model::refusal::Refusal;

// A bracket with its word and a space, a number, and the closing bracket.
#[tactic(auto, using(line_writer::proofs::Decimals::lengths), unfolding(model::specs::Show::text, model::specs::Show::text_from))]
fn numbered_line(word: &[u8], number: u32) -> Line
    requires { length word.now ≤ 64 }
    ensures { result ≡ word.now ++ decimal number ++ text ")" }
{
    let mut line = Line::new();
    line.push_word(word);
    line.push_decimal(number);
    line.push(b')');
    line
}

#[tactic(auto, unfolding(model::specs::Sheet::refused_text, model::specs::Show::text, model::specs::Show::text_from))]
pub fn refused_line(refusal: Refusal) -> Line
    ensures { result ≡ refused_text (number refusal) }
{
    numbered_line(b"(refused ", u32::from(u8::from(refusal)))
}

// So many pairs were put in together.
#[tactic(auto, unfolding(model::specs::Sheet::together_text, model::specs::Show::text, model::specs::Show::text_from))]
pub fn together_line(pairs: u32) -> Line
    ensures { result ≡ together_text pairs }
{
    numbered_line(b"(proposed ", pairs)
}

// The same with two numbers and a space between them.
#[tactic(auto, using(line_writer::proofs::Decimals::lengths), unfolding(model::specs::Show::text, model::specs::Show::text_from))]
fn paired_line(word: &[u8], a: u32, b: u32) -> Line
    requires { length word.now ≤ 64 }
    ensures { result ≡ word.now ++ decimal a ++ text " " ++ decimal b ++ text ")" }
{
    let mut line = Line::new();
    line.push_word(word);
    line.push_decimal(a);
    line.push(b' ');
    line.push_decimal(b);
    line.push(b')');
    line
}

#[tactic(auto, unfolding(model::specs::Sheet::laid_text, model::specs::Show::text, model::specs::Show::text_from))]
pub fn laid_line(n: u8, k: u8) -> Line
    ensures { result ≡ laid_text n k }
{
    paired_line(b"(laid ", u32::from(n), u32::from(k))
}

#[tactic(auto, unfolding(model::specs::Sheet::ran_text, model::specs::Show::text, model::specs::Show::text_from))]
pub fn ran_line(steps: Ran) -> Line
    ensures { result ≡ ran_text (ran steps.taken steps.passed) }
{
    paired_line(b"(ran ", steps.taken, steps.passed)
}

#[tactic(auto, unfolding(model::specs::Sheet::played_text, model::specs::Show::text, model::specs::Show::text_from))]
pub fn played_line(rounds: u32, decided: u32) -> Line
    ensures { result ≡ played_text (played rounds decided) }
{
    paired_line(b"(played ", rounds, decided)
}

#[tactic(auto, using(line_writer::proofs::Decimals::lengths), unfolding(model::specs::Sheet::proposed_text, model::specs::Show::text, model::specs::Show::text_from))]
pub fn proposed_line(station: u8, figure: i32) -> Line
    ensures { result ≡ proposed_text station figure }
{
    let mut line = Line::new();
    line.push_word(b"(proposed ");
    line.push_decimal(u32::from(station));
    line.push(b' ');
    line.push_figure(figure);
    line.push(b')');
    line
}
