// The reader of a run sheet's line: refusals 2 to 4, and the form that the line is.
// Relies on the model's forms, on what rounds ask of a board, on the lexer, brackets and the readers of items, rounds and pairs;
// whatever plays or tapes a line relies on it. Nothing here knows the board.
#![tactic(auto)]

pub mod form;
