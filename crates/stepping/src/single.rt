// A single step over any lent bytes: the board's own refusals 7 to 11, then the step.
// Relies on the test of a board and on the step of a sound one; it is a public call.
ghost use Rattle.std.specs.Prelude.{◌≡◌};
ghost use Rattle.model.specs.Calls.{step};
ghost use Rattle.model.specs.Told.{told};

use crate::sound_step::{refused, step_on};
use model::StepAnswer;
use soundness::board::check_board;

#[tactic(auto, using(crate::proofs::Laws::Checking::checking), unfolding(model::specs::Told::verdict))]
pub fn step(board: &mut [u8], station: u8) -> StepAnswer
    ensures answer { told result ≡ (step station board.old).answer }
    ensures bytes { board.new ≡ (step station board.old).bytes }
{
    match check_board(board) {
        Ok(()) => step_on(board, station),
        Err(refusal) => refused(refusal),
    }
}
