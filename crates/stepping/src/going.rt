// Where a station on a sound board stands, if it goes on, and else the refusal of its step: 12, 14, 15 or 16. Nothing is built
// and no byte is changed.
// Relies on the place of a station; the steps of a sound board rely on it, and so does a step taped.
ghost use Rattle.std.specs.Prelude.{◌≡◌, ◌≤◌, ◌↔◌, IsTrue};
ghost use Rattle.std.proofs.Math.Option.{none};
ghost use Rattle.model.specs.Listing.{accepted};
ghost use Rattle.model.specs.Calls.{board_refusal, step_on};
ghost use Rattle.stepping.specs.Stepped.{Goes};

use model::phase::{DECIDED, IDLE, READ_B, WRITE_M};
use model::refusal::Refusal;
use soundness::place::{Place, station_place};

// Whether a step is taken in this phase.
pub(crate) fn goes_on(phase: u8) -> bool
    ensures { IsTrue result ↔ ((1 ≤ phase) × (phase ≤ 6)) }
{
    matches!(phase, WRITE_M..=READ_B)
}

#[tactic(auto, using(crate::proofs::Laws::Going::finding))]
pub(crate) fn going_place(board: &[u8], station: u8) -> Result<Place, Refusal>
    requires { board_refusal board.now none ≡ none }
    ensures { Goes station board.now result }
{
    let place = station_place(board, station)?;
    match board[place.at] {
        phase if goes_on(phase) => Ok(place),
        IDLE => Err(Refusal::StillIdle),
        DECIDED => Err(Refusal::HasDecided),
        _ => Err(Refusal::IsSpent),
    }
}

// Whether a step of the station would be taken, for callers that have nothing to do where it is not.
#[tactic(auto, using(crate::proofs::Laws::Going::going_is_taken))]
pub fn is_going(board: &[u8], station: u8) -> bool
    requires { board_refusal board.now none ≡ none }
    ensures { result ≡ accepted (step_on station board.now).answer.did }
{
    going_place(board, station).is_ok()
}
