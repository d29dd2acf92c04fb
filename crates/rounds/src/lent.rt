// The rounds of a lent list: station numbers, and 255 at each round's end, which the last may lack.
// Relies on what rounds ask of a board and on one round; the public call relies on it.
ghost use Rattle.std.specs.Prelude.{◌≡◌};
ghost use Rattle.std.proofs.Math.Option.{none};
ghost use Rattle.model.specs.Calls.{board_refusal};
ghost use Rattle.model.specs.Rounds.{lent_rounds};
ghost use Rattle.halts.specs.Needs.{climbs};
ghost use Rattle.rounds.specs.Asked.{Asks};
ghost use Rattle.rounds.specs.Rounds.{after_rounds};
ghost use Rattle.rounds.specs.Suspended.{Suspends};

use crate::round::play_round;
use crate::suspending::suspend;
use halts::{climbed, round_needs};
use scan::find;

// No station's number.
const ROUND_END: u8 = 255;

// How many rounds there are, and the stations that a board must have for them.
#[derive(Clone, Copy)]
pub struct Asked {
    pub rounds: usize,
    pub needs: u8,
}

// What the stations of one round need, whatever their number.
#[tactic(auto, using(crate::proofs::Laws::Lent::climbs_fold))]
fn climb_of(named: &[u8]) -> u8
    ensures { result ≡ climbs 0 named.now }
{
    named
        .iter()
        .fold(0, |last, station| climbed(last, *station))
}

// The set that one round names.
#[tactic(auto, using(crate::proofs::Laws::Suspended::naming))]
fn halted_of(named: &[u8]) -> [bool; 16]
    ensures { Suspends result named.now }
{
    let mut halted = [false; 16];
    for &station in named {
        suspend(&mut halted, station);
    }
    halted
}

// All rounds are summed up before any is played: one at the end of the list may turn the whole call down.
// `split` would find one round more behind a final mark, and `split_inclusive` leaves the mark in each.
#[tactic(auto, using(crate::proofs::Laws::Lent::asked_begun))]
pub fn needs_of(named: &[u8], most: u8) -> Asked
    ensures { Asks most named.now result }
{
    let mut rounds = 0;
    let mut needs = 0;
    let mut at = 0;
    while at < named.len() {
        let end = find(named, at, ROUND_END);
        let last = climb_of(&named[at..end]);
        needs = needs.max(round_needs(last, end - at, most));
        rounds += 1;
        at = end + 1;
    }
    Asked { rounds, needs }
}

// Each round in turn, on a board that is known to be sound.
#[tactic(auto, using(crate::proofs::Laws::Lent::playing))]
pub fn play_rounds(board: &mut [u8], named: &[u8])
    requires { board_refusal board.old none ≡ none }
    ensures { board.new ≡ after_rounds (lent_rounds named.now) board.old }
{
    let mut at = 0;
    while at < named.len() {
        let end = find(named, at, ROUND_END);
        let halted = halted_of(&named[at..end]);
        play_round(board, halted);
        at = end + 1;
    }
}
