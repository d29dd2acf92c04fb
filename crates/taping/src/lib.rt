// One single step taped: its line passed over, or put into a lent buffer as a tape has it; and the steps of one station.
// Relies on the step of a sound board and on the writer of a tape line; the items and the rounds of a line rely on it.
#![tactic(auto)]

pub mod single;

// Lines still to be passed over, lines still to be put in, and how many bytes of the buffer are put in.
#[derive(Clone, Copy, PartialEq, Eq)]
pub struct Taped {
    pub left: usize,
    pub room: usize,
    pub len: usize,
}
