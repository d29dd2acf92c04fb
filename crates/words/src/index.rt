// The words of the store by name: each variant's number is the place of its word in the store's order.
// Relies on nothing; whoever reads or writes a word names it by one of these.
ghost use Rattle.std.specs.Prelude.{◌≡◌, ◌<◌, ◌↔◌, IfOk, IsOk};
ghost use Rattle.words.specs.Index.{place};

// A word is looked for from the first one on, so that those come first that are looked up most: the word of an item, the kinds of
// a tape line and the words of statuses, then the forms; words that come once a line, and are only written, stand behind them.
#[derive(Clone, Copy, PartialEq, Eq)]
pub enum Word {
    Times,
    Read,
    Wrote,
    Going,
    Decided,
    Spent,
    Went,
    Marked,
    Adopted,
    Idle,
    Steps,
    Propose,
    Show,
    Board,
    Rounds,
    Ran,
    Proposed,
    Laid,
    Played,
    Refused,
    Stations,
    Nothing, // "none", which in code is a name of the library's
}

// The place of a word.
impl From<Word> for usize {
    ghost from_gives = { λ word at. (at ≡ place word) × (at < 22) };

    fn from(word: Word) -> usize {
        word as usize
    }
}

// The word at a place, where the store has one.
impl TryFrom<usize> for Word {
    type Error = ();

    ghost try_from_gives = { λ at r. IfOk r (λ word. place word ≡ at) × (IsOk r ↔ (at < 22)) };

    fn try_from(at: usize) -> Result<Self, ()> {
        match at {
            0 => Ok(Word::Times),
            1 => Ok(Word::Read),
            2 => Ok(Word::Wrote),
            3 => Ok(Word::Going),
            4 => Ok(Word::Decided),
            5 => Ok(Word::Spent),
            6 => Ok(Word::Went),
            7 => Ok(Word::Marked),
            8 => Ok(Word::Adopted),
            9 => Ok(Word::Idle),
            10 => Ok(Word::Steps),
            11 => Ok(Word::Propose),
            12 => Ok(Word::Show),
            13 => Ok(Word::Board),
            14 => Ok(Word::Rounds),
            15 => Ok(Word::Ran),
            16 => Ok(Word::Proposed),
            17 => Ok(Word::Laid),
            18 => Ok(Word::Played),
            19 => Ok(Word::Refused),
            20 => Ok(Word::Stations),
            21 => Ok(Word::Nothing),
            _ => Err(()),
        }
    }
}
