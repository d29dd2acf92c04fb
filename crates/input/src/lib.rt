// A whole input read into a lent buffer.
// Relies on std's readers; the programs rely on it.
#![tactic(auto)]

ghost use Rattle.std.specs.Prelude.{◌<◌, ◌≤◌, length, take, IfOk, MatchResult};
ghost use Rattle.std.specs.Io.KnownBytes.{Consumes, IsAtEnd};

use std::io;
use std::io::Read;

// How many bytes were read before the reader failed, and how it did: a part must not be taken for the whole.
#[derive(Clone, Copy)]
pub struct Part {
    pub len: usize,
    pub error: io::Error,
}

// How many bytes there are, which are all or fill the buffer. What a signal interrupts counts as failed.
pub fn read_all<R: Read>(reader: &mut R, buffer: &mut [u8]) -> Result<usize, Part>
    ensures inside { MatchResult result (λ len. len ≤ length buffer.new) (λ part. part.len ≤ length buffer.new) }
    ensures end { IfOk result (λ len. len < length buffer.new → IsAtEnd (R.remaining reader.new)) }
    ensures bytes { MatchResult result
        (λ len. Consumes (R.remaining reader.old) (R.remaining reader.new) (take len buffer.new))
        (λ part. Consumes (R.remaining reader.old) (R.remaining reader.new) (take part.len buffer.new)) }
{
    let mut len = 0;
    while len < buffer.len() {
        match reader.read(&mut buffer[len..]) {
            Ok(0) => break,
            Ok(more) => len += more,
            Err(error) => return Err(Part { len, error }),
        }
    }
    Ok(len)
}
