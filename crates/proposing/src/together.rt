// Proposing the figures of several stations together, over any lent board.
// Relies on the test of a board and on the lent pairs; it is a public call.
ghost use Rattle.std.specs.Prelude.{◌≡◌};
ghost use Rattle.std.proofs.Math.Option.{none};
ghost use Rattle.model.specs.Calls.{board_refusal};
ghost use Rattle.model.specs.Proposals.{lent_pairs, propose_all};
ghost use Rattle.model.specs.Told.{verdict};
ghost use Rattle.proposing.specs.Answers.{ProposesAll};

use crate::lent::{pairs_refusal, put_pairs};
use model::refusal::Refusal;
use soundness::board::check_board;

// The same on a board that is known to be sound. Nothing is put in before the last pair has passed.
#[tactic(auto, using(crate::proofs::Laws::Together::pairs_refuse))]
fn propose_pairs(board: &mut [u8], pairs: &[u64]) -> Result<(), Refusal>
    requires { board_refusal board.old none ≡ none }
    ensures { ProposesAll (lent_pairs pairs.now) board.old result board.new }
{
    pairs_refusal(board, pairs)?;
    put_pairs(board, pairs);
    Ok(())
}

// All pairs or none; no pair at all is taken, as none.
#[tactic(auto, using(crate::proofs::Laws::Together::call), unfolding(model::specs::Told::verdict))]
pub fn propose_all(board: &mut [u8], pairs: &[u64]) -> Result<(), Refusal>
    ensures { (verdict result ≡ (propose_all (lent_pairs pairs.now) board.old).answer) × (board.new ≡ (propose_all (lent_pairs pairs.now) board.old).bytes) }
{
    check_board(board)?;
    propose_pairs(board, pairs)
}
