// The rounds of a `rounds` line, played as they stand in the line, so that no buffer holds them.
// Relies on one round by the set of its suspended stations and on the reader of a known number: the line was read before, so
// that nothing here can miss. The player of a line relies on it, and the rounds taped on its reader of a round.
#![tactic(auto)]

ghost use Rattle.std.specs.Prelude.{◌≡◌};
ghost use Rattle.std.proofs.Math.Option.{none};
ghost use Rattle.model.specs.Calls.{board_refusal};
ghost use Rattle.line_rounds.specs.LineRounds.{RoundStands, RoundIs, RoundsStand, RoundsPlay, LineHas, PlaysLine};

use lexer::At;
use lexer::known::known_number;
use model::RoundsPlayed;
use model::refusal::Refusal;
use rounds::phases::decided_on;
use rounds::refusing::rounds_refusal;
use rounds::round::play_round;
use rounds::suspending::suspend;

// The round whose bracket opens at `at`: the set of the stations that it suspends, and the place after it. One byte stands before
// each number, the bracket or a space.
#[tactic(auto, using(crate::proofs::Laws::OneRound::stations))]
pub fn round_at(line: &[u8], at: usize) -> At<[bool; 16]>
    requires { RoundStands line.now at }
    ensures { RoundIs line.now at result }
{
    let mut halted = [false; 16];
    if line[at + 1] == b')' {
        return At {
            value: halted,
            next: at + 2,
        };
    }
    let mut place = at;
    while line[place] != b')' {
        let station = known_number(line, place + 1);
        suspend(&mut halted, station.value as u8);
        place = station.next;
    }
    At {
        value: halted,
        next: place + 1,
    }
}

// The rounds from `at` on, each behind a space, up to the closing bracket.
#[tactic(auto, using(crate::proofs::Laws::AllRounds::playing))]
fn play_rounds_at(board: &mut [u8], line: &[u8], at: usize)
    requires { (board_refusal board.old none ≡ none) × RoundsStand line.now at }
    ensures { RoundsPlay line.now at board.old board.new }
{
    let mut place = at;
    while line[place] == b' ' {
        let round = round_at(line, place + 1);
        play_round(board, round.value);
        place = round.next;
    }
}

// A line that was read as `rounds` with so many rounds, for which a board must have `needs` stations, on a lent board. The
// number that bounds a round's stations stands behind the space at `at`, and was tested when the line was read.
#[tactic(auto, using(crate::proofs::Laws::WholeLine::line))]
pub fn play_rounds_line(
    board: &mut [u8],
    line: &[u8],
    at: usize,
    rounds: usize,
    needs: u8,
) -> Result<RoundsPlayed, Refusal>
    requires { LineHas line.now at rounds needs }
    ensures { PlaysLine line.now board.old result board.new }
{
    rounds_refusal(board, needs)?;
    let most = known_number(line, at + 1);
    play_rounds_at(board, line, most.next);
    Ok(RoundsPlayed {
        rounds,
        decided: decided_on(board),
    })
}
