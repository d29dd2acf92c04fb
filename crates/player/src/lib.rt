// The player of a run sheet's line on a lent memory.
// Relies on the reader of lines, the run of items and the calls; the answers of a sheet and the C interface rely on it.
#![tactic(auto)]

pub mod line;
