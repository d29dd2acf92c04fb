// A station record's 24 bytes: six fields of a byte, the filled registers met, a zero, three figures, the steps in two
// bytes, two zeros.
// Relies on figures and cells; the soundness test and the calls rely on it.
ghost use Rattle.std.specs.Prelude.{◌≡◌, [], ◌∷◌, ◌+◌, ◌≤◌, ◌<◌, length};
ghost use Rattle.model.specs.Bytes.{part, splice};
ghost use Rattle.model.specs.Figure.{figure_bytes};
ghost use Rattle.model.specs.Layout.{read_record, lay_record, put_changes, steps_is, met_is};
ghost use Rattle.codec.specs.Parts.{steps_read, meeting, met_read, phase_part, collected_part, started_part};

use crate::cells::put;
use figures::pairs::{pair_at, pair_bytes};
use figures::{figure_at, figure_bytes};
use model::Record;

// The record as a move takes it: what was met is left at 0. A move does not look at it, and a byte that is read here would be
// held while the step goes on.
pub fn station_at(s: &[u8], at: usize) -> Record
    requires { at + 24 ≤ length s.now }
    ensures { result ≡ meeting 0 (read_record (part at 24 s.now)) }
{
    Record {
        phase: s[at],
        position: s[at + 1],
        island: s[at + 2],
        seen: s[at + 3],
        highest: s[at + 4],
        flag: s[at + 5],
        proposal: figure_at(s, at + 8),
        carried: figure_at(s, at + 12),
        best: figure_at(s, at + 16),
        steps: pair_at(s, at + 20),
        met: 0,
    }
}

pub fn record_at(s: &[u8], at: usize) -> Record
    requires { at + 24 ≤ length s.now }
    ensures { result ≡ read_record (part at 24 s.now) }
{
    Record {
        met: s[at + 6],
        ..station_at(s, at)
    }
}

pub fn put_record(board: &mut [u8], at: usize, r: Record)
    requires { at + 24 ≤ length board.old }
    ensures { board.new ≡ splice at (lay_record r) board.old }
{
    put(
        board,
        at,
        [
            r.phase, r.position, r.island, r.seen, r.highest, r.flag, r.met, 0,
        ],
    );
    put(board, at + 8, figure_bytes(r.proposal));
    put(board, at + 12, figure_bytes(r.carried));
    put(board, at + 16, figure_bytes(r.best));
    put(board, at + 20, pair_bytes(r.steps));
    put(board, at + 22, [0, 0]);
}

// One more in the steps, where the rest of the record stands already. They are read here and not handed over, so that the
// processor need not hold them while a step goes on.
pub fn count_step(board: &mut [u8], at: usize)
    requires { (at + 24 ≤ length board.old) × (steps_read at board.old < 65535) }
    ensures { board.new ≡ put_changes (steps_is (steps_read at board.old + 1) ∷ []) at board.old }
{
    let steps = pair_at(board, at + 20) + 1;
    put(board, at + 20, pair_bytes(steps));
}

// One more in what was met, in the same way. An empty register does not come here.
pub fn count_met(board: &mut [u8], at: usize)
    requires { (at + 24 ≤ length board.old) × (met_read at board.old < 255) }
    ensures { board.new ≡ put_changes (met_is (met_read at board.old + 1) ∷ []) at board.old }
{
    board[at + 6] += 1;
}

// Three parts of a record, each put where the rest of it stands already. The end of a collect clears what it met.
pub fn put_phase(board: &mut [u8], at: usize, r: Record)
    requires { at + 24 ≤ length board.old }
    ensures { board.new ≡ put_changes (phase_part r) at board.old }
{
    board[at] = r.phase;
}

pub fn put_collected(board: &mut [u8], at: usize, r: Record)
    requires { at + 24 ≤ length board.old }
    ensures { board.new ≡ put_changes (collected_part r) at board.old }
{
    board[at + 1] = r.position;
    board[at + 3] = r.seen;
    board[at + 4] = r.highest;
    put(board, at + 16, figure_bytes(r.best)); // the steps behind it stay
}

pub fn put_started(board: &mut [u8], at: usize, r: Record)
    requires { at + 24 ≤ length board.old }
    ensures { board.new ≡ put_changes (started_part r) at board.old }
{
    board[at] = r.phase;
    board[at + 2] = r.island;
    board[at + 5] = r.flag;
    board[at + 6] = 0;
    put(board, at + 12, figure_bytes(r.carried));
    put_collected(board, at, r);
}
