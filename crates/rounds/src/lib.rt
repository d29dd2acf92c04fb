// The call by the round: refusals 7 to 11, 18 and 19, then each round as its single steps, and how many stand decided then.
// `calling::rounds` is the public call; one round by the set of its suspended stations is shared with a sheet's line.
// Relies on the test of a board, the step of a sound one and what rounds ask of a board; the public calls rely on it.
#![tactic(auto)]

pub mod calling;
mod lent;
pub mod phases;
pub mod refusing;
pub mod round;
pub mod suspending;
