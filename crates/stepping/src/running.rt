// A run over a lent list of station numbers: soundness is tested once, and each step then costs the same.
// Relies on the test of a board and on the counted step of a sound one; it is a public call.
ghost use Rattle.std.specs.Prelude.{◌≡◌, ◌≤◌, length};
ghost use Rattle.std.proofs.Math.Option.{none};
ghost use Rattle.model.specs.Calls.{board_refusal, run};
ghost use Rattle.model.specs.Told.{run_told};
ghost use Rattle.stepping.specs.Stepped.{RunsOn};

use crate::repeated::step_counted;
use model::Ran;
use model::refusal::Refusal;
use soundness::board::check_board;

// The steps taken by the stations of the list, one after another, on a board that is known to be sound.
#[tactic(auto, using(crate::proofs::Laws::Running::counting))]
fn run_on(board: &mut [u8], stations: &[u8]) -> u32
    requires sound { board_refusal board.old none ≡ none }
    requires few { length stations.now ≤ 65536 }
    ensures { RunsOn stations.now board.old result board.new }
{
    let mut count = 0;
    for &station in stations {
        count += step_counted(board, station);
    }
    count
}

#[tactic(auto, using(crate::proofs::Laws::Running::running), unfolding(model::specs::Told::verdict))]
pub fn run(board: &mut [u8], stations: &[u8]) -> Result<Ran, Refusal>
    ensures answer { run_told result ≡ (run stations.now board.old).answer }
    ensures bytes { board.new ≡ (run stations.now board.old).bytes }
{
    if 65536 < stations.len() {
        return Err(Refusal::TooManySteps);
    }
    check_board(board)?;
    let taken = run_on(board, stations);
    let total = stations.len() as u32;
    Ok(Ran {
        taken,
        passed: total - taken,
    })
}
