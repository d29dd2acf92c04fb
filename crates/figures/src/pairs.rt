// Numbers of two bytes, least significant first.
// Relies on the library alone; the codec of records relies on it.
ghost use Rattle.std.specs.Prelude.{◌≡◌, ◌+◌, ◌≤◌, length};
ghost use Rattle.model.specs.Bytes.{number, digits, part};

// Compiled, one load.
pub fn pair_at(s: &[u8], at: usize) -> u16
    requires { at + 2 ≤ length s.now }
    ensures { result ≡ number (part at 2 s.now) }
{
    u16::from_le_bytes([s[at], s[at + 1]])
}

pub fn pair_bytes(x: u16) -> [u8; 2]
    ensures { result ≡ digits 2 x }
{
    x.to_le_bytes()
}
