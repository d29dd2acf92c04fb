// Figures as bytes: four bytes, least significant first, in two's complement. And their order, and numbers of two bytes.
// Relies on the crate model; the codec of registers and records, the collects, the test of a board and the packing of
// answers rely on it.
#![tactic(auto)]

pub mod order; // the order of figures and of pairs
pub mod pairs; // numbers of two bytes
pub mod zeros; // two, four and eight bytes that are zero

ghost use Rattle.std.specs.Prelude.{◌≡◌, ◌+◌, ◌≤◌, length};
ghost use Rattle.std.specs.Int.{w32};
ghost use Rattle.std.proofs.Common.{to_z, of_z};
ghost use Rattle.model.specs.Bytes.{number, part};
ghost use Rattle.model.specs.Figure.{figure, figure_bytes};

// The library's casts and bytes, under contracts in the model's words: those of the crates above rest on them.
// The number that 32 bits stand for.
pub fn signed(bits: u32) -> i32
    ensures { result ≡ to_z w32 bits }
{
    bits.cast_signed()
}

// The 32 bits of a number.
pub fn bits_of(v: i32) -> u32
    ensures { result ≡ of_z w32 v }
{
    v.cast_unsigned()
}

// Four bytes as a number; compiled, one load.
pub fn word_at(s: &[u8], at: usize) -> u32
    requires { at + 4 ≤ length s.now }
    ensures { result ≡ number (part at 4 s.now) }
{
    u32::from_le_bytes([s[at], s[at + 1], s[at + 2], s[at + 3]])
}

pub fn figure_at(s: &[u8], at: usize) -> i32
    requires { at + 4 ≤ length s.now }
    ensures { result ≡ figure (part at 4 s.now) }
{
    signed(word_at(s, at))
}

pub fn figure_bytes(v: i32) -> [u8; 4]
    ensures { result ≡ figure_bytes v }
{
    v.to_le_bytes()
}
