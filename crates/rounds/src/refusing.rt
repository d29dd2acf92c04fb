// The refusals of a call by the round in checking order, before anything is played: the board's own, 18, and 19, which is
// one comparison with what the rounds need.
// Relies on the test of a board and on its phases; the public call and a sheet's line rely on it.
ghost use Rattle.rounds.specs.Asked.{Refuses};
ghost use Rattle.std.specs.Prelude.{◌≡◌};
ghost use Rattle.std.proofs.Math.Option.{none};
ghost use Rattle.model.specs.Calls.{board_refusal};

use crate::phases::all_settled;
use model::refusal::Refusal;
use soundness::board::check_board;

// 18 and 19, on a board that is known to be sound.
#[tactic(auto, using(crate::proofs::Laws::Refusing::refusing))]
fn refusal_on(board: &[u8], needs: u8) -> Result<(), Refusal>
    requires { board_refusal board.now none ≡ none }
    ensures { Refuses needs board.now result }
{
    if !all_settled(board) {
        return Err(Refusal::CollectUnderWay);
    }
    if board[0] < needs {
        return Err(Refusal::UnknownRound);
    }
    Ok(())
}

// Any bytes of any length are answered.
#[tactic(auto, using(crate::proofs::Laws::Refusing::board_refused), unfolding(model::specs::Told::verdict))]
pub fn rounds_refusal(board: &[u8], needs: u8) -> Result<(), Refusal>
    ensures { Refuses needs board.now result }
{
    check_board(board)?;
    refusal_on(board, needs)
}
