// The rounds of a `rounds` line taped, as they stand in the line, so that no buffer holds them.
// Relies on the steps of one station taped and on the reader of a round in a line; the tape of a line relies on it.
#![tactic(auto)]

ghost use Rattle.std.specs.Prelude.{◌≡◌, cond, [], replicate};
ghost use Rattle.taping.specs.Taping.{taping, taped_steps, Ready};
ghost use Rattle.line_rounds.specs.LineRounds.{RoundsStand};
ghost use Rattle.taped_rounds.specs.TapedRounds.{turns_taped, RoundsTape};

use line_rounds::round_at;
use taping::Taped;
use taping::single::tape_turn;

// A station's part in a round.
#[tactic(auto, using(crate::proofs::Laws::Turns::turning))]
fn tape_station(
    board: &mut [u8],
    station: u8,
    halted: bool,
    steps: usize,
    out: &mut [u8],
    taped: Taped,
) -> Taped
    requires { Ready (taping board.old out.old taped) }
    ensures { taping board.new out.new result ≡ taped_steps (cond halted [] (replicate steps station)) (taping board.old out.old taped) }
{
    if halted {
        return taped;
    }
    tape_turn(board, station, steps, out, taped)
}

// The stations in their order, each before the next begins: those that are not suspended take a whole step, which is one
// single step for the write and one for each register of the collect.
#[tactic(auto, using(crate::proofs::Laws::Turns::turns))]
fn tape_round(board: &mut [u8], halted: [bool; 16], out: &mut [u8], taped: Taped) -> Taped
    requires { Ready (taping board.old out.old taped) }
    ensures { taping board.new out.new result ≡ turns_taped halted (taping board.old out.old taped) }
{
    let n = usize::from(board[0]);
    let mut done = taped;
    for j in 0..n {
        done = tape_station(board, (j + 1) as u8, halted[j], n + 1, out, done);
    }
    done
}

// The rounds from `at` on, each behind a space, up to the closing bracket.
#[tactic(auto, using(crate::proofs::Laws::Rounds::taping_rounds))]
pub fn tape_rounds_at(
    board: &mut [u8],
    line: &[u8],
    at: usize,
    out: &mut [u8],
    taped: Taped,
) -> Taped
    requires { Ready (taping board.old out.old taped) × RoundsStand line.now at }
    ensures { RoundsTape line.now at (taping board.old out.old taped) (taping board.new out.new result) }
{
    let mut done = taped;
    let mut place = at;
    while line[place] == b' ' {
        let round = round_at(line, place + 1);
        done = tape_round(board, round.value, out, done);
        place = round.next;
    }
    done
}
