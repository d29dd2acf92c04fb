// One round on a board that is known to be sound: each station that the round does not suspend takes a whole step, a write
// and its collect, in station order. Its cost grows with the stations, not with the islands.
// Relies on the steps of one station; the rounds of a lent list and those of a sheet's line rely on it.
ghost use Rattle.std.specs.Prelude.{◌≡◌, cond, [], replicate};
ghost use Rattle.std.proofs.Math.Option.{none};
ghost use Rattle.model.specs.Calls.{board_refusal, step_on};
ghost use Rattle.model.specs.Runs.{after};
ghost use Rattle.rounds.specs.Rounds.{after_turns, after_round};

use stepping::repeated::steps_of;

// A station's part in a round.
#[tactic(auto, using(crate::proofs::Laws::Turns::turning))]
fn turn_of(board: &mut [u8], station: u8, halted: bool, steps: usize)
    requires { board_refusal board.old none ≡ none }
    ensures { board.new ≡ after step_on board.old (cond halted [] (replicate steps station)) }
{
    if !halted {
        steps_of(board, station, steps);
    }
}

// The stations in their order, each before the next begins.
#[tactic(auto, using(crate::proofs::Laws::Turns::turns))]
fn stations_in_turn(board: &mut [u8], halted: [bool; 16], steps: usize)
    requires { board_refusal board.old none ≡ none }
    ensures { board.new ≡ after_turns steps halted board.old }
{
    for j in 0..board[0] {
        turn_of(board, j + 1, halted[usize::from(j)], steps);
    }
}

// A write is one step and the collect of its array one for each station.
#[tactic(auto, using(crate::proofs::Laws::Turns::heads), unfolding(model::specs::Calls::stations))]
pub fn play_round(board: &mut [u8], halted: [bool; 16])
    requires { board_refusal board.old none ≡ none }
    ensures { board.new ≡ after_round halted board.old }
{
    let n = usize::from(board[0]);
    stations_in_turn(board, halted, n + 1);
}
