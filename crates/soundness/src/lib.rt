// The test of a lent board: its shape, then soundness, in one pass over its bytes; and where a station stands on it.
// Relies on model and on the test of the records; every call over a lent board relies on it.
#![tactic(auto)]

pub mod registers; // the registers, row by row
pub mod shape; // refusals 7 to 10
pub mod board; // the whole board, and refusals 7 to 11
pub mod place; // a station's number, refusal 12, and its record's place
