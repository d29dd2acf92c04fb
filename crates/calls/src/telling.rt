// Telling how one station stands, and its steps.
// Relies on the test of a board, the place of a station, the codec and the standing by phase; it is a public call.
ghost use Rattle.std.specs.Prelude.{◌≡◌};
ghost use Rattle.std.proofs.Math.Option.{none};
ghost use Rattle.model.specs.Calls.{board_refusal};
ghost use Rattle.model.specs.Standing.{standing};
ghost use Rattle.model.specs.Told.{standing_answered};

use codec::records::record_at;
use model::Effort;
use model::refusal::Refusal;
use shown::standing::standing_of;
use soundness::board::check_board;
use soundness::place::station_place;

// The same on a board that is known to be sound.
#[tactic(auto, using(crate::proofs::Laws::Telling::steps))]
fn standing_on(board: &[u8], station: u8) -> Result<Effort, Refusal>
    requires { board_refusal board.now none ≡ none }
    ensures { standing_answered result ≡ standing station board.now }
{
    let place = station_place(board, station)?;
    let own = record_at(board, place.at);
    Ok(Effort {
        standing: standing_of(own),
        steps: own.steps,
    })
}

#[tactic(auto, using(crate::proofs::Laws::Telling::board_refuses), unfolding(model::specs::Told::verdict))]
pub fn standing(board: &[u8], station: u8) -> Result<Effort, Refusal>
    ensures { standing_answered result ≡ standing station board.now }
{
    check_board(board)?;
    standing_on(board, station)
}
