// The test of the station records of a board: each one's fields and counts, and what it says of the station's own
// register.
// Relies on model and codec; the test of the whole board relies on it.
#![tactic(auto)]

pub mod counts; // a record's counts
pub mod fields; // a record's fields as numbers
pub mod own; // a record against the station's own register
pub mod records; // the records
