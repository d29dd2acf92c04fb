// The calls on a lent board, for C.
// Relies on the calls and on the packing of their answers; a station's firmware relies on it.
ghost use Rattle.std.specs.Prelude.{◌≡◌};
ghost use Rattle.std.proofs.Math.Option.{none};
ghost use Rattle.model.specs.Calls.{board_refusal, lay, propose, step, run};
ghost use Rattle.model.specs.Proposals.{lent_pairs, propose_all};
ghost use Rattle.model.specs.Rounds.{lent_rounds, rounds};
ghost use Rattle.model.specs.Standing.{standing};
ghost use Rattle.packing.specs.Packing.{pack_verdict, pack_step, pack_run, pack_rounds, pack_standing};
ghost use Rattle.capi.specs.LentLines.{countable};

use crate::lent_lines::NOT_PLAYED;
use packing::{rounds_number, run_number, standing_number, step_number, verdict_number};

#[unsafe(no_mangle)]
pub extern "C" fn lufanelis_lay(board: &mut [u8], n: u8, k: u8) -> u8
    ensures { (result ≡ pack_verdict (lay n k board.old).answer) × (board.new ≡ (lay n k board.old).bytes) }
{
    verdict_number(calls::lay(board, n, k))
}

#[unsafe(no_mangle)]
pub extern "C" fn lufanelis_propose(board: &mut [u8], station: u8, figure: i32) -> u8
    ensures { (result ≡ pack_verdict (propose station figure board.old).answer) × (board.new ≡ (propose station figure board.old).bytes) }
{
    verdict_number(calls::propose(board, station, figure))
}

// Each number of the list is a pair, so that no lengths can fail to fit.
#[unsafe(no_mangle)]
pub extern "C" fn lufanelis_propose_all(board: &mut [u8], pairs: &[u64]) -> u8
    ensures { (result ≡ pack_verdict (propose_all (lent_pairs pairs.now) board.old).answer) × (board.new ≡ (propose_all (lent_pairs pairs.now) board.old).bytes) }
{
    verdict_number(calls::propose_all(board, pairs))
}

#[unsafe(no_mangle)]
pub extern "C" fn lufanelis_check(board: &[u8]) -> u8
    ensures { result ≡ pack_verdict (board_refusal board.now none) }
{
    verdict_number(calls::check_board(board))
}

#[unsafe(no_mangle)]
pub extern "C" fn lufanelis_step(board: &mut [u8], station: u8) -> u64
    ensures { (result ≡ pack_step (step station board.old).answer) × (board.new ≡ (step station board.old).bytes) }
{
    step_number(calls::step(board, station))
}

#[unsafe(no_mangle)]
pub extern "C" fn lufanelis_run(board: &mut [u8], stations: &[u8]) -> u64
    ensures { (result ≡ pack_run (run stations.now board.old).answer) × (board.new ≡ (run stations.now board.old).bytes) }
{
    run_number(calls::run(board, stations))
}

#[unsafe(no_mangle)]
pub extern "C" fn lufanelis_rounds(board: &mut [u8], most: u8, named: &[u8]) -> u64
    ensures { (result ≡ countable named.now (pack_rounds (rounds most (lent_rounds named.now) board.old).answer) 18446744073709551615)
        × (board.new ≡ countable named.now (rounds most (lent_rounds named.now) board.old).bytes board.old) }
{
    if 4294967295 < named.len() {
        return NOT_PLAYED;
    }
    rounds_number(calls::rounds(board, most, named))
}

#[unsafe(no_mangle)]
pub extern "C" fn lufanelis_standing(board: &[u8], station: u8) -> u64
    ensures { result ≡ pack_standing (standing station board.now) }
{
    standing_number(calls::standing(board, station))
}
