// The word store: every word of a run sheet's forms and answers, of a tape line and of what is said of two tapes. Each stands
// once, end to end with the others, beside the lengths of all; a word is named by its variant of `Word`, or by that one's number.
// Relies on the writer of lines; nothing rests on it yet.
#![tactic(auto)]

ghost use Rattle.std.specs.Prelude.{◌≡◌, ◌+◌, ◌<◌, ◌≤◌, ◌++◌, length, IfSome};
ghost use Rattle.model.specs.Bytes.{splice};
ghost use Rattle.words.specs.Index.{place, place_or_all};
ghost use Rattle.words.specs.Store.{Packed, words, word_text, index_in};

use crate::index::Word;
use line_writer::line::Line;

pub mod index;

// The words' lengths in bytes, and their letters.
#[derive(Clone, Copy)]
struct Store {
    lengths: [u8; 22],
    letters: [u8; 119],
}

const WORDS: Store = Store {
    lengths: [
        5, // times
        4, // read
        5, // wrote
        5, // going
        7, // decided
        5, // spent
        4, // went
        6, // marked
        7, // adopted
        4, // idle
        5, // steps
        7, // propose
        4, // show
        5, // board
        6, // rounds
        3, // ran
        8, // proposed
        4, // laid
        6, // played
        7, // refused
        8, // stations
        4, // none
    ],
    letters: *b"timesreadwrotegoingdecidedspentwentmarkedadoptedidlestepsproposeshowboardroundsranproposedlaidplayedrefusedstationsnone",
};

// All that is known of the constant, once for all its words.
fn packed() -> Store
    ensures { Packed result.lengths result.letters words }
{
    WORDS
}

// The word that a part is, if any. The number of all words stands for none in the definitions.
pub fn word_of(part: &[u8]) -> Option<Word>
    ensures index { place_or_all result ≡ index_in words part.now }
    ensures inside { IfSome result (λ word. place word < length words) }
{
    let store = packed();
    let lengths = store.lengths;
    let letters = store.letters;
    let mut from = 0;
    for (place, &length) in lengths.iter().enumerate() {
        let end = from + usize::from(length);
        if part == &letters[from..end] {
            return Word::try_from(place).ok();
        }
        from = end;
    }
    None
}

// The index of the word that a part is, and 22 where it is none.
#[tactic(auto, using(crate::proofs::Laws::Walking::words_count))]
pub fn index_of(part: &[u8]) -> usize
    ensures { result ≡ index_in words part.now }
{
    match word_of(part) {
        Some(word) => usize::from(word),
        None => 22,
    }
}

// The letters of a word, behind those of all the words before it.
fn letters_of(store: &Store, word: Word) -> &[u8]
    requires { Packed store.now.lengths store.now.letters words }
    ensures { result.now ≡ word_text (place word) }
{
    let place = usize::from(word);
    let from: usize = store.lengths[..place]
        .iter()
        .map(|&length| usize::from(length))
        .sum();
    let end = from + usize::from(store.lengths[place]);
    &store.letters[from..end]
}

// A word, put at a line's end.
pub fn push_named(line: &mut Line, word: Word)
    requires { length line.old + length (word_text (place word)) ≤ 512 }
    ensures { line.new ≡ line.old ++ word_text (place word) }
{
    let store = packed();
    line.push_word(letters_of(&store, word));
}

// The word with an index, written at a place of the lent bytes of a line, whatever stands before and behind; what is handed back
// is where it ends. No text belongs to an index that names no word.
#[tactic(auto, using(crate::proofs::Laws::Writing::putting))]
pub fn write_named(bytes: &mut [u8; 512], at: usize, word: usize) -> usize
    requires { at + length (word_text word) ≤ 512 }
    ensures bytes { bytes.new ≡ splice at (word_text word) bytes.old }
    ensures end { result ≡ at + length (word_text word) }
{
    let Ok(named) = Word::try_from(word) else {
        return at;
    };
    let store = packed();
    let letters = letters_of(&store, named);
    let end = at + letters.len();
    bytes[at..end].copy_from_slice(letters);
    end
}
