// Proposing a figure for an idle station.
// Relies on the test of a board, the place of a station and the codec; it is a public call.
ghost use Rattle.std.specs.Prelude.{◌≡◌};
ghost use Rattle.std.proofs.Math.Option.{none};
ghost use Rattle.model.specs.declared.Record.{Record};
ghost use Rattle.model.specs.Listing.{proposed};
ghost use Rattle.model.specs.Layout.{record_fields, with_counts};
ghost use Rattle.model.specs.Calls.{board_refusal, proposal_refusal, propose};
ghost use Rattle.model.specs.Told.{verdict};
ghost use Rattle.proposing.specs.Answers.{Proposes};

use codec::places::record_offset;
use codec::records::put_record;
use model::Record;
use model::phase::{IDLE, WRITE_M};
use model::refusal::Refusal;
use soundness::board::check_board;
use soundness::place::station_place;

// "phase 1, c = 0, proposal and carried = the figure", no step taken since and nothing met, whatever record stood there.
fn beginning(figure: i32) -> Record
    ensures { (station : Record) → result ≡ record_fields (proposed figure) (with_counts 0 0 station) }
{
    Record {
        phase: WRITE_M,
        position: 0,
        island: 0,
        seen: 0,
        highest: 0,
        flag: 0,
        proposal: figure,
        carried: figure,
        best: 0,
        steps: 0,
        met: 0,
    }
}

// What a sound board refuses a station's proposal with: 12, 22 or 13. A board of two stations may be stepped to its end, but
// takes no figure.
#[tactic(auto, using(crate::proofs::Laws::Single::refusing))]
pub fn refusal_of(board: &[u8], station: u8) -> Result<(), Refusal>
    requires { board_refusal board.now none ≡ none }
    ensures { verdict result ≡ proposal_refusal station board.now }
{
    let place = station_place(board, station)?;
    if board[0] == 2 {
        return Err(Refusal::TwoStations);
    }
    if board[place.at] != IDLE {
        return Err(Refusal::NotIdle);
    }
    Ok(())
}

// A proposal that a sound board takes.
#[tactic(auto, using(crate::proofs::Laws::Single::taking))]
pub fn put_in(board: &mut [u8], station: u8, figure: i32)
    requires { (board_refusal board.old none ≡ none) × (proposal_refusal station board.old ≡ none) }
    ensures { board.new ≡ (propose station figure board.old).bytes }
{
    let n = usize::from(board[0]);
    let k = usize::from(board[1]);
    let at = record_offset(n, k, usize::from(station) - 1);
    put_record(board, at, beginning(figure));
}

// A proposal on a board that is known to be sound.
#[tactic(auto, using(crate::proofs::Laws::Single::on_board), unfolding(model::specs::Told::verdict))]
fn propose_on(board: &mut [u8], station: u8, figure: i32) -> Result<(), Refusal>
    requires { board_refusal board.old none ≡ none }
    ensures { Proposes station figure board.old result board.new }
{
    refusal_of(board, station)?;
    put_in(board, station, figure);
    Ok(())
}

#[tactic(auto, using(crate::proofs::Laws::Single::call), unfolding(model::specs::Told::verdict))]
pub fn propose(board: &mut [u8], station: u8, figure: i32) -> Result<(), Refusal>
    ensures { (verdict result ≡ (propose station figure board.old).answer) × (board.new ≡ (propose station figure board.old).bytes) }
{
    check_board(board)?;
    propose_on(board, station, figure)
}
