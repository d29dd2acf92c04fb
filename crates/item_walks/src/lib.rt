// Items of a `steps` line as they stand there, gone over once more: laws only, for whatever single steps do; nothing runs here.
// Relies on the lexer's known numbers and the reader of items; the run and the tape of a line's items rely on it.
#![tactic(auto)]
