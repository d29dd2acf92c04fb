// Where a line ends, on a sheet and on a tape alike.
// Relies on the search for a byte; the comparison of tapes and the tape of a sheet rely on it.
#![tactic(auto)]

ghost use Rattle.std.specs.Prelude.{◌≤◌, length};
ghost use Rattle.lines.specs.Ends.{LineEnd};

use scan::find;

// The place of the LF that ends the line at `at`, or of the last line's end.
pub fn line_end(bytes: &[u8], at: usize) -> usize
    requires { at ≤ length bytes.now }
    ensures { LineEnd bytes.now at result }
{
    find(bytes, at, b'\n')
}
