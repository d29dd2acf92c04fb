// A number or a figure that is known to stand at a place of a line: it was read there before, so that no range is left to test.
// Relies on nothing; the run of items, the play of rounds and the proposals of a line rely on it.
ghost use Rattle.lexer.specs.Known.{NumberStands, KnownIs, FigureStands, KnownFigureIs};

use crate::At;

// The number at `at`: a first 0 is all of it, and else its digits go on to the first byte that is none.
pub fn known_number(line: &[u8], at: usize) -> At<u32>
    requires { NumberStands line.now at }
    ensures { KnownIs line.now at result }
{
    let first = line[at];
    if first == b'0' {
        return At {
            value: 0,
            next: at + 1,
        };
    }
    let mut value = u32::from(first - b'0');
    for next in at + 1..line.len() {
        let byte = line[next];
        if !byte.is_ascii_digit() {
            return At { value, next };
        }
        value = 10 * value + u32::from(byte - b'0');
    }
    At {
        value,
        next: line.len(),
    }
}

// The figure behind the space at `at`. The complement of a number is one below its negative.
pub fn known_figure(line: &[u8], at: usize) -> At<i32>
    requires { FigureStands line.now at }
    ensures { KnownFigureIs line.now at result }
{
    if line[at + 1] == b'-' {
        let size = known_number(line, at + 2);
        return At {
            value: !((size.value - 1) as i32),
            next: size.next,
        };
    }
    let size = known_number(line, at + 1);
    At {
        value: size.value as i32,
        next: size.next,
    }
}
