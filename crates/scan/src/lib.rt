// The search for a byte in a part of a slice that goes up to its end.
// Relies on the model for the equality of numbers; the ends of lines, the answers of a sheet and the lent rounds rely on it.
#![tactic(auto)]

ghost use Rattle.std.specs.Prelude.{◌≡◌, ◌+◌, ◌≤◌, length, drop};
ghost use Rattle.scan.specs.Scan.{index_of};

// The place of the first `mark` from `at` on, or the end.
pub fn find(bytes: &[u8], at: usize, mark: u8) -> usize
    requires { at ≤ length bytes.now }
    ensures inside { result ≤ length bytes.now }
    ensures first { result ≡ at + index_of mark (drop at bytes.now) }
{
    match bytes[at..].iter().position(|&byte| byte == mark) {
        Some(count) => at + count,
        None => bytes.len(),
    }
}
