// Steps on a sound board of which only the bytes and the number taken are asked: one of a station, and so many of it. No
// answer is built, which would go through memory, and the refusals are not told apart.
// Relies on the place of a station and on the step of a going one; the run, the run of items, a round and a step
// taped rely on it.
ghost use Rattle.std.specs.Prelude.{◌≡◌, [], ◌∷◌, replicate};
ghost use Rattle.std.proofs.Math.Option.{none};
ghost use Rattle.model.specs.Calls.{board_refusal, step_on};
ghost use Rattle.model.specs.Runs.{after};
ghost use Rattle.stepping.specs.Stepped.{RunsOn};

use crate::going::{goes_on, going_place};
use accessing::step_going;
use soundness::place::{Place, station_place};

// 1 for a step taken, 0 for a refused one.
#[tactic(auto, using(crate::proofs::Laws::Repeated::counting), unfolding(crate::specs::Stepped::Goes))]
pub fn step_counted(board: &mut [u8], station: u8) -> u32
    requires { board_refusal board.old none ≡ none }
    ensures { RunsOn (station ∷ []) board.old result board.new }
{
    let n = board[0];
    let k = board[1];
    let Ok(Place { index, at }) = going_place(board, station) else {
        return 0;
    };
    step_going(board, n, k, index, at);
    1
}

// The place is found once, as steps do not move it. A station that is idle, decided or spent stays so, and the board with
// it: the steps that are left are passed over.
#[tactic(auto, using(crate::proofs::Laws::Repeated::repeating))]
pub fn steps_of(board: &mut [u8], station: u8, count: usize)
    requires { board_refusal board.old none ≡ none }
    ensures { board.new ≡ after step_on board.old (replicate count station) }
{
    let Ok(Place { index, at }) = station_place(board, station) else {
        return;
    };
    let n = board[0];
    let k = board[1];
    for _ in 0..count {
        if !goes_on(board[at]) {
            return;
        }
        step_going(board, n, k, index, at);
    }
}
