// The registers of a board: each empty or filled as its array allows.
// Relies on words of four bytes and on zeros; the board's test relies on it.
ghost use Rattle.std.specs.Prelude.{◌≡◌, ◌&&◌, ◌+◌, ◌*◌, ◌≤◌, length};
ghost use Rattle.model.specs.Bytes.{part, every};
ghost use Rattle.model.specs.Listing.{in_a, in_b};
ghost use Rattle.model.specs.Layout.{board_length};
ghost use Rattle.model.specs.Sound.{register_sound, array_sound, registers_sound};

use figures::word_at;
use figures::zeros::{zero_cell, zero_pair};

// In A and B the island is zero, so that the first four bytes of a filled register, as one number, are its mark; a register
// with no mark is sound where all eight bytes are zero. Each of the two tests is one comparison, and these rows are nearly all of
// a board; with zero asked first they take a fifth more instructions.
#[tactic(auto, using(crate::proofs::Laws::Rows::one))]
fn register_sound(s: &[u8], at: usize, marks: u8, islands: u8) -> bool
    requires { at + 8 ≤ length s.now }
    ensures { result ≡ register_sound marks islands (part at 8 s.now) }
{
    if islands == 1 {
        let word = word_at(s, at);
        return word != 0 && word <= u32::from(marks) || zero_cell(s, at);
    }
    zero_cell(s, at) || s[at] != 0 && s[at] <= marks && s[at + 1] < islands && zero_pair(s, at + 2)
}

// The n registers from start on.
#[tactic(auto, using(crate::proofs::Laws::Rows::row))]
fn row_sound(s: &[u8], start: usize, n: usize, marks: u8, islands: u8) -> bool
    requires { (start + 8 * n ≤ length s.now) × (n ≤ 16) }
    ensures { result ≡ every n (λ j. register_sound marks islands (part (start + 8 * j) 8 s.now)) }
{
    for j in 0..n {
        if !register_sound(s, start + 8 * j, marks, islands) {
            return false;
        }
    }
    true
}

// The rows A and B of each island.
fn islands_sound(s: &[u8], n: usize, k: usize) -> bool
    requires { (length s.now ≡ board_length n k) × (1 ≤ n) × (n ≤ 16) × (k ≤ 64) }
    ensures { result ≡ every k (λ c. array_sound n 1 1 s.now (in_a c) && array_sound n 2 1 s.now (in_b c)) }
{
    let width = 8 * n;
    let mut start = 8 + width;
    for _c in 0..k {
        if !row_sound(s, start, n, 1, 1) || !row_sound(s, start + width, n, 2, 1) {
            return false;
        }
        start += width + width;
    }
    true
}

#[tactic(auto, using(crate::proofs::Laws::Rows::all))]
pub fn registers_sound(s: &[u8], n: usize, k: usize) -> bool
    requires { (length s.now ≡ board_length n k) × (1 ≤ n) × (n ≤ 16) × (k ≤ 64) }
    ensures { result ≡ registers_sound n k s.now }
{
    row_sound(s, 8, n, 1, k as u8) && islands_sound(s, n, k)
}
