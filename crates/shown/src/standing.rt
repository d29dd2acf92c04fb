// How a station stands, by the phase of its record.
// Relies on the model's declared types alone; the status of a shown line and the call that tells one station's standing rely
// on it.
ghost use Rattle.std.specs.Prelude.{◌≡◌};
ghost use Rattle.model.specs.Layout.{record_value};
ghost use Rattle.model.specs.Standing.{standing_of};
ghost use Rattle.model.specs.Told.{standing_told};

use model::phase::{DECIDED, IDLE, READ_B, WRITE_M};
use model::{Record, Standing};

// "phases 1 to 6 are going"
#[tactic(auto, using(crate::proofs::Standings::by_phase))]
pub fn standing_of(station: Record) -> Standing
    ensures { standing_told result ≡ standing_of (record_value station) }
{
    let island = station.island;
    let figure = station.carried;
    match station.phase {
        IDLE => Standing::Idle,
        WRITE_M..=READ_B => Standing::Going { island, figure },
        DECIDED => Standing::Decided { island, figure },
        _ => Standing::Spent { island, figure },
    }
}
