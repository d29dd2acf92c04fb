// Pairs tried one after another on a sound board, before any is put in: 20 over all of them, and else the first pair's fault.
// Relies on the set of named stations and on one station's refusals; the lent pairs and those of a sheet's line rely on it.
ghost use Rattle.std.specs.Prelude.{◌≡◌, length};
ghost use Rattle.std.proofs.Math.Option.{none};
ghost use Rattle.model.specs.Calls.{board_refusal};
ghost use Rattle.model.specs.Told.{verdict};
ghost use Rattle.proposing.specs.Tried.{TriesNext, TriesNextNumber, numbered};

use crate::naming::name_station;
use crate::single::refusal_of;
use model::refusal::Refusal;

// The pairs so far are refused as `so_far` says, and this one comes behind them. A station that is named again turns all pairs
// down, whatever fault stood before it.
#[tactic(auto, using(crate::proofs::Laws::Trying::steps))]
pub fn try_next(
    board: &[u8],
    flags: &mut [bool; 256],
    station: u8,
    so_far: Result<(), Refusal>,
) -> Result<(), Refusal>
    requires { (board_refusal board.now none ≡ none) × (length flags.old ≡ 256) }
    ensures { TriesNext board.now flags.old station so_far flags.new result }
{
    if name_station(flags, station) {
        return Err(Refusal::NamedTwice);
    }
    so_far?;
    refusal_of(board, station)
}

// A refusal by its number, 0 for none.
#[tactic(auto, using(crate::proofs::Laws::Trying::told_by_number))]
fn number_of(refused: Result<(), Refusal>) -> u8
    ensures { numbered result ≡ verdict refused }
{
    match refused {
        Ok(()) => 0,
        Err(refusal) => u8::from(refusal),
    }
}

// The same for those who keep the refusal so far as its number, 0 for none.
#[tactic(auto, using(crate::proofs::Laws::Trying::number_steps))]
pub fn try_pair(board: &[u8], flags: &mut [bool; 256], station: u8, number: u8) -> u8
    requires { (board_refusal board.now none ≡ none) × (length flags.old ≡ 256) }
    ensures { TriesNextNumber board.now flags.old station number flags.new result }
{
    let twice = name_station(flags, station);
    if twice {
        return u8::from(Refusal::NamedTwice);
    }
    if number != 0 {
        return number;
    }
    number_of(refusal_of(board, station))
}
