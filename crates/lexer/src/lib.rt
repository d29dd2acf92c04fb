// Numbers and words at a place of a line.
// Relies on the model's forms and refusals; the reader of a line, the run of items and the C interface rely on it. Nothing here
// knows the board.
#![tactic(auto)]

pub mod known;
pub mod number;
pub mod word;

// A thing read and the place after it.
#[derive(Clone, Copy)]
pub struct At<T> {
    pub value: T,
    pub next: usize,
}
