// The call by the round over any lent board: its refusals, the rounds of the lent list, and who stands decided then.
// Relies on the lent rounds and on the refusals; it is a public call.
ghost use Rattle.std.specs.Prelude.{◌≡◌};
ghost use Rattle.model.specs.Rounds.{lent_rounds, rounds};
ghost use Rattle.model.specs.Told.{rounds_told};

use crate::lent::{needs_of, play_rounds};
use crate::phases::decided_on;
use crate::refusing::rounds_refusal;
use model::RoundsPlayed;
use model::refusal::Refusal;

// `most` is how many stations a round may name. Nothing is played of a call that is refused.
#[tactic(auto, using(crate::proofs::Laws::Calling::calling))]
pub fn rounds(board: &mut [u8], most: u8, named: &[u8]) -> Result<RoundsPlayed, Refusal>
    ensures answer { rounds_told result ≡ (rounds most (lent_rounds named.now) board.old).answer }
    ensures bytes { board.new ≡ (rounds most (lent_rounds named.now) board.old).bytes }
{
    let asked = needs_of(named, most);
    rounds_refusal(board, asked.needs)?;
    play_rounds(board, named);
    Ok(RoundsPlayed {
        rounds: asked.rounds,
        decided: decided_on(board),
    })
}
