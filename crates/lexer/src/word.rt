// The word that names a form, as the part of the line that it occupies, and which form it names; and a given word at a place.
// Relies on the refusals; the readers of a line, of items and of a tape line and the C interface rely on it.
ghost use Rattle.std.specs.Prelude.{◌≡◌, ◌<◌, length};
ghost use Rattle.model.specs.Forms.{word_rows, row_in, first_word, form_word};
ghost use Rattle.lexer.specs.Words.{WordEnd, PartIs, named_row, WordIs};

use model::refusal::Refusal;

#[derive(Clone, Copy, PartialEq, Eq)]
pub enum FormWord {
    Board,
    Propose,
    Steps,
    Show,
    Rounds,
}

// Where the word that starts at 1 ends: before a space, a bracket or the line's end.
pub fn word_end(line: &[u8]) -> usize
    requires { 0 < length line.now }
    ensures { WordEnd line.now result }
{
    let stop = line[1..]
        .iter()
        .position(|&byte| matches!(byte, b' ' | b'(' | b')'));
    match stop {
        Some(length) => 1 + length,
        None => line.len(),
    }
}

// The bytes that stand where a form's word would.
pub fn first_word(line: &[u8]) -> &[u8]
    ensures { PartIs line.entry result (first_word line.now) }
{
    if line.first() != Some(&b'(') {
        return &line[..0];
    }
    &line[1..word_end(line)]
}

// The form that a word names. The proof of one match on these texts didn't close: its last arm is reached in 28 ways.
#[inline(always)]
pub fn form_named(word: &[u8]) -> Option<FormWord>
    ensures { named_row result ≡ row_in word_rows word.now }
{
    if word == b"board".as_slice() {
        return Some(FormWord::Board);
    }
    if word == b"propose".as_slice() {
        return Some(FormWord::Propose);
    }
    if word == b"steps".as_slice() {
        return Some(FormWord::Steps);
    }
    if word == b"show".as_slice() {
        return Some(FormWord::Show);
    }
    if word == b"rounds".as_slice() {
        return Some(FormWord::Rounds);
    }
    None
}

// The word that names the line's form, or an empty part.
pub fn form_word(line: &[u8]) -> &[u8]
    ensures { PartIs line.entry result (form_word line.now) }
{
    let word = first_word(line);
    if form_named(word).is_none() {
        return &line[..0];
    }
    word
}

// The bytes of `word` at `at`; no word is empty.
pub fn word_at(line: &[u8], at: usize, word: &[u8]) -> Result<usize, Refusal>
    requires { 0 < length word.now }
    ensures { WordIs line.now at word.now result }
{
    let Some(rest) = line.get(at..) else {
        return Err(Refusal::NoForm);
    };
    if rest.starts_with(word) {
        return Ok(at + word.len());
    }
    Err(Refusal::NoForm)
}
