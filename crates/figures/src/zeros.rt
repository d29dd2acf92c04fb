// Two, four and eight bytes that are zero: a function for each width, since a number is tested by one load, and the bytes of any
// width only one by one. Relies on the numbers of two and of four bytes; the tests of registers, of records and of the board's
// head rely on it.
ghost use Rattle.std.specs.Prelude.{◌≡◌, ◌+◌, ◌≤◌, length};
ghost use Rattle.model.specs.Bytes.{part, zeros};

use crate::pairs::pair_at;
use crate::word_at;

pub fn zero_pair(s: &[u8], at: usize) -> bool
    requires { at + 2 ≤ length s.now }
    ensures { result ≡ zeros (part at 2 s.now) }
{
    pair_at(s, at) == 0
}

pub fn zero_word(s: &[u8], at: usize) -> bool
    requires { at + 4 ≤ length s.now }
    ensures { result ≡ zeros (part at 4 s.now) }
{
    word_at(s, at) == 0
}

pub fn zero_cell(s: &[u8], at: usize) -> bool
    requires { at + 8 ≤ length s.now }
    ensures { result ≡ zeros (part at 8 s.now) }
{
    u64::from_le_bytes([
        s[at],
        s[at + 1],
        s[at + 2],
        s[at + 3],
        s[at + 4],
        s[at + 5],
        s[at + 6],
        s[at + 7],
    ]) == 0
}
