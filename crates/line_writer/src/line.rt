// A line of at most 512 bytes, and what is put at its end.
// Relies on nothing; numbers, statuses, the lines of a run sheet and those of a tape rely on it.
ghost use Rattle.std.specs.Prelude.{◌≡◌, ◌+◌, ◌-◌, ◌<◌, ◌≤◌, [], ◌∷◌, ◌++◌, length, replicate};

use std::marker::Model;

// The bytes after the first `len` are zero.
#[derive(Clone, Copy)]
pub struct Line {
    bytes: [u8; 512],
    len: usize,
}

// Contracts see the text: the bytes that were put in.
impl Model for Line {
    ghost use Rattle.std.specs.Prelude.{◌≡◌, ℕ, List, ◌-◌, ◌≤◌, ◌++◌, length, take, drop, replicate};
    ghost use Rattle.std.proofs.Common.{arith, length-take-le};
    ghost use Rattle.line_writer.specs.Padded.{padded};

    ghost Value = { List ℕ };

    ghost view = { λ l. take l.len l.bytes };

    ghost invariant = { λ l. (l.len ≤ 512) × (length l.bytes ≡ 512) × (drop l.len l.bytes ≡ replicate (512 - l.len) 0) };

    ghost inverse = { λ t. record { bytes = t ++ replicate (512 - length t) 0; len = length t } };

    ghost inverse_ok = { λ l h i. record {
      bytes = padded l.len l.bytes h.0 h.1 h.2 i;
      len = length-take-le l.len l.bytes (omega (arith, h.0, h.1)) i;
    } };
}

impl Line {
    pub fn new() -> Self
        ensures { result ≡ [] }
    {
        Line {
            bytes: [0; 512],
            len: 0,
        }
    }

    pub fn len(&self) -> usize
        ensures counted { result ≡ length self.now }
        ensures within { result ≤ 512 }
    {
        self.len
    }

    // The text.
    pub fn as_slice(&self) -> &[u8]
        ensures { result.now ≡ self.now }
    {
        &self.bytes[..self.len]
    }

    // The text with zeros after it.
    pub fn bytes(&self) -> [u8; 512]
        ensures { result ≡ self.now ++ replicate (512 - length self.now) 0 }
    {
        self.bytes
    }

    pub fn push(&mut self, byte: u8)
        requires { length self.old < 512 }
        ensures { self.new ≡ self.old ++ byte ∷ [] }
    {
        self.bytes[self.len] = byte;
        self.len += 1;
    }

    pub fn push_word(&mut self, word: &[u8])
        requires { length self.old + length word.now ≤ 512 }
        ensures { self.new ≡ self.old ++ word.now }
    {
        let end = self.len + word.len();
        self.bytes[self.len..end].copy_from_slice(word);
        self.len = end;
    }
}
