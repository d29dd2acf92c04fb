// Bytes to fields and back, exactly as model/specs/Layout.antt says: registers and records at a place of a board, and
// where these places are.
// Relies on model and on the bytes of a figure; soundness and the calls rely on it. Every function is straight-line code.
#![tactic(auto)]

pub mod places; // where the parts of a board stand
pub mod cells; // eight bytes put at a place
pub mod registers; // a register's eight bytes
pub mod records; // a station record's 24 bytes
