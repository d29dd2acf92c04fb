// The pairs of a lent list, each as one number: bits 0 to 7 the station, 32 to 63 the figure's 32 bits.
// Relies on pairs that are tried and on one that is put in; the public call relies on it.
ghost use Rattle.std.specs.Prelude.{◌≡◌, ◌%◌, ◌/◌};
ghost use Rattle.std.proofs.Math.Option.{none};
ghost use Rattle.std.specs.Int.{w32};
ghost use Rattle.std.proofs.Common.{to_z};
ghost use Rattle.model.specs.Calls.{board_refusal};
ghost use Rattle.model.specs.AnyOrder.{AllAccepted};
ghost use Rattle.model.specs.Proposals.{lent_pair, lent_pairs, pairs_refusal, one_by_one};
ghost use Rattle.model.specs.Told.{verdict};
ghost use Rattle.proposing.specs.Lent.{pair_of};

use crate::single::put_in;
use crate::trying::try_next;
use figures::{bits_of, signed};
use model::refusal::Refusal;

// Where the figure begins.
const FIGURE: u64 = 4294967296;

// The pair of a station and its figure, for those who lend pairs.
pub fn pair(station: u8, figure: i32) -> u64
    ensures { lent_pair result ≡ pair_of station figure }
{
    u64::from(station) + u64::from(bits_of(figure)) * FIGURE
}

fn station_of(pair: u64) -> u8
    ensures { result ≡ pair % 256 }
{
    (pair % 256) as u8
}

fn figure_of(pair: u64) -> i32
    ensures { result ≡ to_z w32 (pair / 4294967296) }
{
    signed((pair / FIGURE) as u32)
}

// What a sound board refuses the pairs with.
#[tactic(auto, using(crate::proofs::Laws::Lent::trying))]
pub fn pairs_refusal(board: &[u8], pairs: &[u64]) -> Result<(), Refusal>
    requires { board_refusal board.now none ≡ none }
    ensures { verdict result ≡ pairs_refusal (lent_pairs pairs.now) board.now }
{
    let mut flags = [false; 256];
    let mut so_far = Ok(());
    for &pair in pairs {
        so_far = try_next(board, &mut flags, station_of(pair), so_far);
    }
    so_far
}

// Each pair put in, on a board that takes every one of them.
#[tactic(auto, using(crate::proofs::Laws::Lent::putting))]
pub fn put_pairs(board: &mut [u8], pairs: &[u64])
    requires { AllAccepted (lent_pairs pairs.now) board.old }
    ensures { board.new ≡ one_by_one (lent_pairs pairs.now) board.old }
{
    for &pair in pairs {
        put_in(board, station_of(pair), figure_of(pair));
    }
}
