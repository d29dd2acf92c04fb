// A step on a board that is known to be sound: refusals 12, 14, 15 and 16, then one access. Its cost is the same whatever
// the size of the board.
// Relies on the place of a going station and on its step; the public step and a step taped rely on it.
ghost use Rattle.std.specs.Prelude.{◌≡◌};
ghost use Rattle.std.proofs.Math.Option.{none};
ghost use Rattle.model.specs.Calls.{board_refusal};
ghost use Rattle.model.specs.Filled.{refusal};
ghost use Rattle.model.specs.Told.{told, number};
ghost use Rattle.accessing.specs.Accessed.{StepsOn};

use crate::going::going_place;
use accessing::step_going;
use model::StepAnswer;
use model::refusal::Refusal;
use soundness::place::Place;

// A refusal as the answer of a step.
pub(crate) fn refused(refusal: Refusal) -> StepAnswer
    ensures { result ≡ StepAnswer.Refused (number refusal) }
{
    StepAnswer::Refused {
        number: u8::from(refusal),
    }
}

#[tactic(auto, using(crate::proofs::Laws::Going::stepping_on), unfolding(crate::specs::Stepped::Goes))]
pub fn step_on(board: &mut [u8], station: u8) -> StepAnswer
    requires { board_refusal board.old none ≡ none }
    ensures { StepsOn station board.old result board.new }
{
    match going_place(board, station) {
        Ok(Place { index, at }) => {
            let n = board[0];
            let k = board[1];
            step_going(board, n, k, index, at)
        }
        Err(refusal) => refused(refusal),
    }
}
