// Laying a fresh board in lent memory.
// Relies on the shape of a board; it is a public call.
ghost use Rattle.std.specs.Prelude.{◌≡◌};
ghost use Rattle.model.specs.Calls.{laid_ranges, lay};
ghost use Rattle.model.specs.Told.{verdict};

use model::refusal::Refusal;
use soundness::shape::{islands_in_range, shape_refusal, stations_in_range};

// A saved board may have two stations, a laid one has 1 or 3 to 16.
#[tactic(auto, unfolding(model::specs::Calls::laid_ranges, model::specs::Calls::ranges))]
fn layable(n: u8) -> bool
    ensures { result ≡ laid_ranges.stations_in n }
{
    n != 2 && stations_in_range(n)
}

// "n and K as given when laying"; what the memory held before does not matter.
#[tactic(auto, using(crate::proofs::Laws::Laying::steps))]
pub fn lay(board: &mut [u8], n: u8, k: u8) -> Result<(), Refusal>
    ensures { (verdict result ≡ (lay n k board.old).answer) × (board.new ≡ (lay n k board.old).bytes) }
{
    shape_refusal(board, n, k, layable(n), islands_in_range(k))?;
    board.fill(0);
    board[0] = n;
    board[1] = k;
    Ok(())
}
