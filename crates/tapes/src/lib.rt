// Two tapes of one run compared.
// Relies on the tape of a line and on the reader of a tape line; the C interface and the program that compares rely on it.
#![tactic(auto)]

mod checking;
pub mod comparing;
mod culprit;
mod difference;
