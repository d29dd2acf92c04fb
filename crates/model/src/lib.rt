// The types that the definitions in specs/ and the code of the crates above share, and the numbers of phases and marks.
// Nothing runs here but the number of a refusal.
#![tactic(auto)]

pub mod marks; // the marks of a register
pub mod phase; // the phases of a record
pub mod refusal; // why a call is refused

// A register by its fields: mark 0 (empty), 1 or 2, then island and figure.
#[derive(Clone, Copy)]
pub struct Register {
    pub mark: u8,
    pub island: u8,
    pub figure: i32,
}

// A station's record by its fields: those that tell how it stands in the order of their bytes, then its two counts;
// `highest` is the best island.
#[derive(Clone, Copy)]
pub struct Record {
    pub phase: u8,
    pub position: u8,
    pub island: u8,
    pub seen: u8,
    pub highest: u8,
    pub flag: u8,
    pub proposal: i32,
    pub carried: i32,
    pub best: i32,
    pub steps: u16,
    pub met: u8,
}

// What a step answers: "its kind and fields". A flag is 1 for adopt and 2 for commit; `filled` tells whether a read met a filled
// register, and a total how many the collect met that ended. It stands beside the other byte, so that an answer has eight bytes.
// A refusal is one of its kinds, with its number, as the public document has it.
// specs/Told.antt gives the meaning of each case; contracts speak through it.
#[derive(Clone, Copy)]
pub enum StepAnswer {
    Wrote,
    Read { filled: bool },
    Went { island: u8, total: u8, figure: i32 },
    Marked { flag: u8, total: u8, figure: i32 },
    Adopted { island: u8, total: u8, figure: i32 },
    Decided { island: u8, total: u8, figure: i32 },
    Spent { island: u8, total: u8, figure: i32 },
    Refused { number: u8 },
}

// What an accepted run answers: the steps taken, and the steps refused and passed over.
#[derive(Clone, Copy)]
pub struct Ran {
    pub taken: u32,
    pub passed: u32,
}

// What an accepted call by the round answers: the rounds played, and all stations that stand decided.
#[derive(Clone, Copy)]
pub struct RoundsPlayed {
    pub rounds: usize,
    pub decided: u8,
}

// How a station stands: idle, or going, decided or spent with its island and the figure that it carries.
#[derive(Clone, Copy)]
pub enum Standing {
    Idle,
    Going { island: u8, figure: i32 },
    Decided { island: u8, figure: i32 },
    Spent { island: u8, figure: i32 },
}

// What the call for one station answers: how it stands, and the steps it has taken.
#[derive(Clone, Copy)]
pub struct Effort {
    pub standing: Standing,
    pub steps: u16,
}

// One of two tapes of a run.
#[derive(Clone, Copy)]
pub enum Tap {
    First,
    Second,
}

// Where two tapes differ: the number of the line, whose line is the culprit's, and the place and the length of that line on its
// tape.
#[derive(Clone, Copy)]
pub struct Difference {
    pub line: usize,
    pub tap: Tap,
    pub start: usize,
    pub len: usize,
}
