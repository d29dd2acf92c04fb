// Numbers at a place of a line: no plus, no leading zero, no −0, and each in its range.
// Relies on the refusals; the readers of items, of forms and of a tape line and the run of items rely on it.
ghost use Rattle.std.specs.Prelude.{◌≤◌, length};
ghost use Rattle.lexer.specs.Placed.{DigitsIs, NumberIs, SpacedIs, FigureIs};

use crate::At;
use model::refusal::Refusal;

// The digits from `at` on, behind those of `value`. A number that grows beyond its range is none, whatever follows.
fn digits(line: &[u8], at: usize, value: u32, high: u32) -> Result<At<u32>, Refusal>
    requires inside { at ≤ length line.now }
    requires small { value ≤ high }
    requires range { high ≤ 2147483648 }
    ensures { DigitsIs line.now at value high result }
{
    let mut value = value;
    for next in at..line.len() {
        let byte = line[next];
        if !byte.is_ascii_digit() {
            return Ok(At { value, next });
        }
        let more = 10 * u64::from(value) + u64::from(byte - b'0');
        if u64::from(high) < more {
            return Err(Refusal::NoForm);
        }
        value = more as u32;
    }
    Ok(At {
        value,
        next: line.len(),
    })
}

// A number at `at`, from `low` to `high`.
pub fn number(line: &[u8], at: usize, low: u32, high: u32) -> Result<At<u32>, Refusal>
    requires { (low ≤ 1) × (9 ≤ high) × (high ≤ 2147483648) }
    ensures { NumberIs line.now at low high result }
{
    let Some(&first) = line.get(at) else {
        return Err(Refusal::NoForm);
    };
    if !first.is_ascii_digit() {
        return Err(Refusal::NoForm);
    }
    if b'0' < first {
        return digits(line, at + 1, u32::from(first - b'0'), high);
    }
    if low == 0 {
        return Ok(At {
            value: 0,
            next: at + 1,
        });
    }
    Err(Refusal::NoForm)
}

// A space at `at`, and a number from 0 to 99 behind it.
pub fn spaced_number(line: &[u8], at: usize) -> Result<At<u32>, Refusal>
    ensures { SpacedIs line.now at result }
{
    if line.get(at) != Some(&b' ') {
        return Err(Refusal::NoForm);
    }
    number(line, at + 1, 0, 99)
}

// A space at `at`, and a figure behind it. The complement of a number is one below its negative.
pub fn spaced_figure(line: &[u8], at: usize) -> Result<At<i32>, Refusal>
    ensures { FigureIs line.now at result }
{
    if line.get(at) != Some(&b' ') {
        return Err(Refusal::NoForm);
    }
    if line.get(at + 1) == Some(&b'-') {
        let Ok(size) = number(line, at + 2, 1, 2147483648) else {
            return Err(Refusal::NoForm);
        };
        return Ok(At {
            value: !((size.value - 1) as i32),
            next: size.next,
        });
    }
    let Ok(size) = number(line, at + 1, 0, 2147483647) else {
        return Err(Refusal::NoForm);
    };
    Ok(At {
        value: size.value as i32,
        next: size.next,
    })
}
