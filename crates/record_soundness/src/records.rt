// The records of a board: each one's fields, its counts, and its own register.
// Relies on fields, counts, own and codec's records; the board's test relies on it.
ghost use Rattle.std.specs.Prelude.{◌≡◌, ◌+◌, ◌≤◌, ◌<◌, length};
ghost use Rattle.model.specs.Bytes.{part, zeros, every};
ghost use Rattle.model.specs.Layout.{board_length, record_at, record_of};
ghost use Rattle.model.specs.Sound.{record_sound};

use crate::counts::{met_sound, steps_sound};
use crate::fields::fields_sound;
use crate::own::own_sound;
use codec::places::record_offset;
use codec::records::record_at;
use figures::zeros::{zero_cell, zero_pair};
use model::phase::IDLE;

// "Idle is all zero": that is all that is asked of such a record.
#[tactic(auto, using(crate::proofs::Laws::Records::three_cells))]
fn idle_sound(s: &[u8], at: usize) -> bool
    requires { at + 24 ≤ length s.now }
    ensures { result ≡ zeros (part at 24 s.now) }
{
    zero_cell(s, at) && zero_cell(s, at + 8) && zero_cell(s, at + 16)
}

fn record_sound(s: &[u8], at: usize, n: usize, k: usize, i: usize) -> bool
    requires { (length s.now ≡ board_length n k) × (n ≤ 16) × (k ≤ 64) × (0 < k) × (i < n) × (at ≡ record_at n k i) }
    ensures { result ≡ record_sound n k i s.now (record_of n k i s.now) }
{
    if s[at] == IDLE {
        return idle_sound(s, at);
    }
    let f = record_at(s, at);
    zero_pair(s, at + 22)
        && met_sound(s, at, f.position)
        && fields_sound(f, n, k)
        && steps_sound(f, n)
        && own_sound(s, n, k, i, f)
}

#[tactic(auto, using(crate::proofs::Laws::Records::each))]
pub fn records_sound(s: &[u8], n: usize, k: usize) -> bool
    requires { (length s.now ≡ board_length n k) × (n ≤ 16) × (k ≤ 64) × (0 < n) × (0 < k) }
    ensures { result ≡ every n (λ i. record_sound n k i s.now (record_of n k i s.now)) }
{
    let first = record_offset(n, k, 0);
    for i in 0..n {
        if !record_sound(s, first + 24 * i, n, k, i) {
            return false;
        }
    }
    true
}
