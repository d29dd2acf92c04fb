// Which stations of a sound board are in the middle of a collect, and how many have decided: byte 0 of each record alone.
// Relies on where a record stands; the refusals of a call by the round and what it answers rely on it.
ghost use Rattle.std.specs.Prelude.{◌≡◌};
ghost use Rattle.std.proofs.Math.Option.{none};
ghost use Rattle.model.specs.Calls.{board_refusal};
ghost use Rattle.model.specs.Rounds.{all_settled, decided_on};
ghost use Rattle.rounds.specs.Phases.{Settles, Decides};

use codec::places::record_offset;
use model::phase::{DECIDED, READ_A, READ_B, READ_M};

// A station that has written and not yet read all that it collects stands in one of three phases.
#[tactic(auto, using(crate::proofs::Laws::Phases::reading, crate::proofs::Laws::Phases::not_reading))]
fn is_settled(phase: u8) -> bool
    ensures { Settles phase result }
{
    phase != READ_M && phase != READ_A && phase != READ_B
}

// 1 for a station that stands decided.
#[tactic(auto, using(crate::proofs::Laws::Phases::decides_in))]
fn one_decided(phase: u8) -> u8
    ensures { Decides phase result }
{
    u8::from(phase == DECIDED)
}

// Whether a call by the round may begin: no station is in the middle of a collect.
#[tactic(auto, using(crate::proofs::Laws::Phases::settling))]
pub fn all_settled(board: &[u8]) -> bool
    requires { board_refusal board.now none ≡ none }
    ensures { result ≡ all_settled board.now }
{
    let n = usize::from(board[0]);
    let k = usize::from(board[1]);
    for j in 0..n {
        if !is_settled(board[record_offset(n, k, j)]) {
            return false;
        }
    }
    true
}

// All stations that stand decided, also those that did before the call.
#[tactic(auto, using(crate::proofs::Laws::Phases::deciding))]
pub fn decided_on(board: &[u8]) -> u8
    requires { board_refusal board.now none ≡ none }
    ensures { result ≡ decided_on board.now }
{
    let n = usize::from(board[0]);
    let k = usize::from(board[1]);
    let mut count = 0;
    for j in 0..n {
        count += one_decided(board[record_offset(n, k, j)]);
    }
    count
}
