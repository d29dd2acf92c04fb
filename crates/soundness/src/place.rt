// Where a station stands: its number against the head, refusal 12, and then its index and the offset of its record.
// Relies on the offsets of a board; every call that names a station relies on it.
ghost use Rattle.std.specs.Prelude.{◌≡◌};
ghost use Rattle.std.proofs.Math.Option.{none};
ghost use Rattle.model.specs.Calls.{board_refusal};
ghost use Rattle.soundness.specs.Placed.{Placed};

use codec::places::record_offset;
use model::refusal::Refusal;

#[derive(Clone, Copy)]
pub struct Place {
    pub index: usize,
    pub at: usize,
}

// On a board that is known to be sound.
#[tactic(auto, using(crate::proofs::Laws::Placing::placing))]
pub fn station_place(board: &[u8], station: u8) -> Result<Place, Refusal>
    requires { board_refusal board.now none ≡ none }
    ensures { Placed station board.now result }
{
    let n = board[0];
    let k = board[1];
    if station < 1 || n < station {
        return Err(Refusal::NoStation);
    }
    let index = usize::from(station) - 1;
    let at = record_offset(usize::from(n), usize::from(k), index);
    Ok(Place { index, at })
}
