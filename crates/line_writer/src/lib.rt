// Lines put together piece by piece: bytes, words and numbers at a line's end.
// Relies on the model's numbers; whatever writes a line relies on it.
#![tactic(auto)]

pub mod line;
mod number;
