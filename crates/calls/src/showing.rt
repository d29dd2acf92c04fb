// The line of `show`, handed back by value: as a line, or as 512 bytes and a length.
// Relies on the test of a board, the codec and the statuses of a line; both are public calls.
ghost use Rattle.std.specs.Prelude.{◌≡◌, []};
ghost use Rattle.std.proofs.Math.Option.{none, some};
ghost use Rattle.model.specs.Calls.{board_refusal};
ghost use Rattle.model.specs.Show.{shown_line, shown_as, show};
ghost use Rattle.model.specs.Told.{number, shown_told};
ghost use Rattle.calls.specs.Shown.{shown_bytes};

use codec::places::record_offset;
use codec::records::record_at;
use line_writer::line::Line;
use model::refusal::Refusal;
use shown::status::{opened, write_status};
use soundness::board::check_board;

// The stations of a sound board in order, behind the opening word. The line of a sound board never exceeds 512 bytes.
#[tactic(auto, using(crate::proofs::Laws::Showing::steps))]
fn show_on(board: &[u8]) -> Line
    requires { board_refusal board.now none ≡ none }
    ensures { result ≡ shown_line board.now }
{
    let n = usize::from(board[0]);
    let k = usize::from(board[1]);
    let mut line = opened();
    for j in 0..n {
        let own = record_at(board, record_offset(n, k, j));
        write_status(&mut line, (j + 1) as u8, own);
    }
    line.push(b')');
    line
}

#[tactic(auto, using(crate::proofs::Laws::Showing::call), unfolding(model::specs::Told::verdict))]
pub fn show(board: &[u8]) -> Result<Line, Refusal>
    ensures { shown_told result ≡ show board.now }
{
    check_board(board)?;
    Ok(show_on(board))
}

// What `show_by_value` hands back: the line, zeros after it, and its length; zeros alone beside a refusal.
#[derive(Clone, Copy)]
pub struct ShownLine {
    pub verdict: Result<(), Refusal>,
    pub bytes: [u8; 512],
    pub len: usize,
}

// Zeros alone beside the refusal.
#[tactic(auto, unfolding(crate::specs::Shown::shown_bytes, model::specs::Told::verdict, model::specs::Show::shown_as))]
fn not_shown(refusal: Refusal) -> ShownLine
    ensures { shown_bytes result ≡ shown_as (some (number refusal)) [] }
{
    ShownLine {
        verdict: Err(refusal),
        bytes: [0u8; 512],
        len: 0,
    }
}

#[tactic(auto, using(crate::proofs::Laws::Showing::given_by_value))]
pub fn show_by_value(board: &[u8]) -> ShownLine
    ensures { shown_bytes result ≡ show board.now }
{
    match show(board) {
        Ok(line) => ShownLine {
            verdict: Ok(()),
            bytes: line.bytes(),
            len: line.len(),
        },
        Err(refusal) => not_shown(refusal),
    }
}
