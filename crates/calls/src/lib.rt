// The public calls over a lent board: refusals in checking order, then the work. They are those that are named here.
// Relies on the test of a board, the codec, the proposals, the step, the rounds, and how a station stands, as a value or in a
// line; the C interface and the player of run sheets rely on it.
#![tactic(auto)]

mod laying;
mod showing;
mod telling;

pub use laying::lay;
pub use proposing::lent::pair;
pub use proposing::single::propose;
pub use proposing::together::propose_all;
pub use rounds::calling::rounds;
pub use showing::{ShownLine, show, show_by_value};
pub use soundness::board::check_board;
pub use stepping::running::run;
pub use stepping::single::step;
pub use telling::standing;
