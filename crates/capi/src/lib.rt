// The calls as C makes them: lent slices and numbers alone, each answer packed into one number.
// Relies on the calls, the lexer, the player, the comparison of tapes and the packing of answers; a station's firmware links it, and
// include/lufanelis.h declares it.
#![tactic(auto)]

mod board;
mod compared;
mod lent_lines;
