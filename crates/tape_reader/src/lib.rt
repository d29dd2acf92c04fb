// The test of a tape line: a station, the kind of its step and the fields of that kind, between brackets.
// Relies on the lexer's numbers and words and on the test for the closing bracket; the comparison of tapes relies on it.
#![tactic(auto)]

ghost use Rattle.std.specs.Prelude.{◌≡◌, ◌≤◌, length, drop};
ghost use Rattle.model.specs.Tape.{read_in, kind_rows, is_entry};
ghost use Rattle.model.specs.Forms.{row_in};
ghost use Rattle.tape_reader.specs.Reading.{given, by_row, EndsIs};

use brackets::closes;
use lexer::number::{number, spaced_figure, spaced_number};
use lexer::word::word_end;

// Whether the field of `read` stands at `at`: 1 for a filled register and 0 for an empty one.
fn read_field(line: &[u8], at: usize) -> bool
    ensures { result ≡ given (read_in (drop at line.now)) }
{
    let Ok(filled) = spaced_number(line, at) else {
        return false;
    };
    filled.value <= 1 && closes(line, filled.next)
}

// Whether the fields of an answer that ends a collect stand at `at`: a number from `low` to `high`, a figure and a total.
fn end_fields(line: &[u8], at: usize, low: u32, high: u32) -> bool
    requires { high ≤ 99 }
    ensures { EndsIs line.now at low high result }
{
    let Ok(first) = spaced_number(line, at) else {
        return false;
    };
    let Ok(figure) = spaced_figure(line, first.next) else {
        return false;
    };
    let Ok(total) = spaced_number(line, figure.next) else {
        return false;
    };
    (low..=high).contains(&first.value) && closes(line, total.next)
}

// Whether `word` is a kind, and that kind's fields stand at `at`. A test a word, in the model's order: one of several words would
// leave its proof more cases than it saves lines.
fn kind_fields(line: &[u8], at: usize, word: &[u8]) -> bool
    requires { at ≤ length line.now }
    ensures { result ≡ given (by_row (row_in kind_rows word.now) (drop at line.now)) }
{
    if word == b"wrote".as_slice() {
        return closes(line, at);
    }
    if word == b"read".as_slice() {
        return read_field(line, at);
    }
    if word == b"went".as_slice() {
        return end_fields(line, at, 0, 99);
    }
    if word == b"marked".as_slice() {
        return end_fields(line, at, 1, 2);
    }
    if word == b"adopted".as_slice() {
        return end_fields(line, at, 0, 99);
    }
    if word == b"decided".as_slice() {
        return end_fields(line, at, 0, 99);
    }
    if word == b"spent".as_slice() {
        return end_fields(line, at, 0, 99);
    }
    false
}

// Whether a line of any content and length, without its LF, is a step answer.
pub fn is_entry(line: &[u8]) -> bool
    ensures { result ≡ is_entry line.now }
{
    if line.first() != Some(&b'(') {
        return false;
    }
    let Ok(station) = number(line, 1, 0, 99) else {
        return false;
    };
    if line.get(station.next) != Some(&b' ') {
        return false;
    }
    let first = station.next + 1;
    let behind = station.next + word_end(&line[station.next..]);
    kind_fields(line, behind, &line[first..behind])
}
