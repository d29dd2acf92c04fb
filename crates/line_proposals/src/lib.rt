// The pairs of a `propose` line, tried and put in as they stand in the line, so that no buffer holds them.
// Relies on one pair tried and one put in, and on the readers of a known number and figure: the line was read before, so that
// nothing here can miss. The player of a line relies on it.
#![tactic(auto)]

ghost use Rattle.std.specs.Prelude.{◌≡◌};
ghost use Rattle.std.proofs.Math.Option.{none};
ghost use Rattle.model.specs.Calls.{board_refusal};
ghost use Rattle.line_proposals.specs.LinePairs.{PairStands, PairIs, PairsStand, PairsRefuse, PairsTaken, PairsPut};
ghost use Rattle.line_proposals.specs.LinePairs.{PairsPropose, LineHas, ProposesLine};

use lexer::At;
use lexer::known::{known_figure, known_number};
use model::refusal::Refusal;
use pair_reader::Pair;
use proposing::single::put_in;
use proposing::trying::try_next;
use soundness::board::check_board;

// The pair whose bracket opens at `at`.
#[tactic(auto, using(crate::proofs::Laws::OnePair::steps))]
fn pair_at(line: &[u8], at: usize) -> At<Pair>
    requires { PairStands line.now at }
    ensures { PairIs line.now at result }
{
    let station = known_number(line, at + 1);
    let figure = known_figure(line, station.next);
    At {
        value: Pair {
            station: station.value as u8,
            figure: figure.value,
        },
        next: figure.next + 1,
    }
}

// What a sound board refuses the pairs from `at` on with.
#[tactic(auto, using(crate::proofs::Laws::AllPairs::trying))]
fn refusal_at(board: &[u8], line: &[u8], at: usize) -> Result<(), Refusal>
    requires { (board_refusal board.now none ≡ none) × PairsStand line.now at }
    ensures { PairsRefuse line.now at board.now result }
{
    let mut flags = [false; 256];
    let mut so_far = Ok(());
    let mut place = at;
    while line[place] == b' ' {
        let pair = pair_at(line, place + 1);
        so_far = try_next(board, &mut flags, pair.value.station, so_far);
        place = pair.next;
    }
    so_far
}

// Each pair from `at` on put in, on a board that takes every one of them.
#[tactic(auto, using(crate::proofs::Laws::AllPairs::putting))]
fn put_pairs_at(board: &mut [u8], line: &[u8], at: usize)
    requires { PairsTaken line.now at board.old }
    ensures { PairsPut line.now at board.old board.new }
{
    let mut place = at;
    while line[place] == b' ' {
        let pair = pair_at(line, place + 1);
        put_in(board, pair.value.station, pair.value.figure);
        place = pair.next;
    }
}

// Nothing is put in before the last pair has passed.
#[tactic(auto, using(crate::proofs::Laws::WholeLine::steps))]
fn propose_pairs_at(board: &mut [u8], line: &[u8], at: usize) -> Result<(), Refusal>
    requires { (board_refusal board.old none ≡ none) × PairsStand line.now at }
    ensures { PairsPropose line.now at board.old result board.new }
{
    refusal_at(board, line, at)?;
    put_pairs_at(board, line, at);
    Ok(())
}

// A line that was read as pairs, on a lent board. The first pair stands behind the space at `at`.
#[tactic(auto, using(crate::proofs::Laws::WholeLine::call), unfolding(model::specs::Told::verdict))]
pub fn propose_line(board: &mut [u8], line: &[u8], at: usize) -> Result<(), Refusal>
    requires { LineHas line.now at }
    ensures { ProposesLine line.now board.old result board.new }
{
    check_board(board)?;
    propose_pairs_at(board, line, at)
}
