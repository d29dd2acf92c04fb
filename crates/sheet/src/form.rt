// A line to its form, or to refusal 2, 3 or 4.
// Relies on the lexer's words and numbers, on brackets and the readers of items, rounds and pairs; the player of a line relies
// on it.
ghost use Rattle.std.specs.Prelude.{◌≡◌, ◌≤◌, length, drop};
ghost use Rattle.model.specs.Forms.{board_row, propose_row, steps_row, show_row, rounds_row, single_in, together_in};
ghost use Rattle.model.specs.Forms.{word_place, form_in, or_four, read_line};
ghost use Rattle.sheet.specs.LineForms.{told, line_form};

use brackets::{closes, opens_pair, too_deep};
use item_reader::items;
use lexer::At;
use lexer::number::{spaced_figure, spaced_number};
use lexer::word::{FormWord, first_word, form_named};
use model::refusal::Refusal;
use pair_reader::pair_list;
use round_reader::round_list;

// A form with its numbers. The items of `steps` stay in the line, from the place `at` on; `count` is how many steps
// they stand for, 65,537 for any number above 65,536. So do the number and the rounds of `rounds`: there are `rounds`
// of them, and a board must have `needs` stations for them, 255 for rounds that no board takes. So do the `pairs` pairs of
// `propose`.
#[derive(Clone, Copy)]
pub enum LineForm {
    Board { n: u8, k: u8 },
    Propose { station: u8, figure: i32 },
    Steps { at: usize, count: u32 },
    Show,
    Rounds { at: usize, rounds: usize, needs: u8 },
    Proposals { at: usize, pairs: usize },
}

fn board_form(line: &[u8], at: usize) -> Result<LineForm, Refusal>
    ensures { told result ≡ line_form at (or_four (board_row.reader (drop at line.now))) }
{
    let Ok(n) = spaced_number(line, at) else {
        return Err(Refusal::NoForm);
    };
    let Ok(k) = spaced_number(line, n.next) else {
        return Err(Refusal::NoForm);
    };
    if closes(line, k.next) {
        return Ok(LineForm::Board {
            n: n.value as u8,
            k: k.value as u8,
        });
    }
    Err(Refusal::NoForm)
}

fn single_form(line: &[u8], at: usize) -> Result<LineForm, Refusal>
    ensures { told result ≡ line_form at (or_four (single_in (drop at line.now))) }
{
    let Ok(station) = spaced_number(line, at) else {
        return Err(Refusal::NoForm);
    };
    let Ok(figure) = spaced_figure(line, station.next) else {
        return Err(Refusal::NoForm);
    };
    if closes(line, figure.next) {
        return Ok(LineForm::Propose {
            station: station.value as u8,
            figure: figure.value,
        });
    }
    Err(Refusal::NoForm)
}

fn together_form(line: &[u8], at: usize) -> Result<LineForm, Refusal>
    ensures { told result ≡ line_form at (or_four (together_in (drop at line.now))) }
{
    let Ok(pairs) = pair_list(line, at) else {
        return Err(Refusal::NoForm);
    };
    if pairs.next < line.len() {
        return Err(Refusal::NoForm);
    }
    Ok(LineForm::Proposals {
        at,
        pairs: pairs.value.count,
    })
}

fn propose_form(line: &[u8], at: usize) -> Result<LineForm, Refusal>
    ensures { told result ≡ line_form at (or_four (propose_row.reader (drop at line.now))) }
{
    if opens_pair(line, at) {
        return together_form(line, at);
    }
    single_form(line, at)
}

fn steps_form(line: &[u8], at: usize) -> Result<LineForm, Refusal>
    ensures { told result ≡ line_form at (or_four (steps_row.reader (drop at line.now))) }
{
    let Ok(At { value: count, next }) = items(line, at) else {
        return Err(Refusal::NoForm);
    };
    if next < line.len() {
        return Err(Refusal::NoForm);
    }
    Ok(LineForm::Steps { at, count })
}

fn show_form(line: &[u8], at: usize) -> Result<LineForm, Refusal>
    requires { at ≤ length line.now }
    ensures { told result ≡ line_form at (or_four (show_row.reader (drop at line.now))) }
{
    if closes(line, at) {
        return Ok(LineForm::Show);
    }
    Err(Refusal::NoForm)
}

fn rounds_form(line: &[u8], at: usize) -> Result<LineForm, Refusal>
    ensures { told result ≡ line_form at (or_four (rounds_row.reader (drop at line.now))) }
{
    let Ok(k) = spaced_number(line, at) else {
        return Err(Refusal::NoForm);
    };
    let Ok(rounds) = round_list(line, k.next, k.value as u8) else {
        return Err(Refusal::NoForm);
    };
    if rounds.next < line.len() {
        return Err(Refusal::NoForm);
    }
    Ok(LineForm::Rounds {
        at,
        rounds: rounds.value.count,
        needs: rounds.value.needs,
    })
}

fn form(line: &[u8]) -> Result<LineForm, Refusal>
    ensures { told result ≡ line_form (word_place line.now) (or_four (form_in line.now)) }
{
    let part = first_word(line);
    let at = part.len() + 1;
    let Some(word) = form_named(part) else {
        return Err(Refusal::NoForm);
    };
    match word {
        FormWord::Board => board_form(line, at),
        FormWord::Propose => propose_form(line, at),
        FormWord::Steps => steps_form(line, at),
        FormWord::Show => show_form(line, at),
        FormWord::Rounds => rounds_form(line, at),
    }
}

// A line of any content and length, without its LF.
pub fn read_line(line: &[u8]) -> Result<LineForm, Refusal>
    ensures { told result ≡ line_form (word_place line.now) (read_line line.now) }
{
    if 255 < line.len() {
        return Err(Refusal::LineTooLong);
    }
    if too_deep(line) {
        return Err(Refusal::BracketsTooDeep);
    }
    form(line)
}
