// The items of `steps`: the reader of an item and the reader of a list of items call each other, and count the steps.
// Relies on the lexer's numbers and words, and its laws on what is read of a list; the reader of a line relies on it, and the
// walks along items on its laws. It knows no board.
#![tactic(auto)]

ghost use Rattle.std.specs.Prelude.{◌≡◌};
ghost use Rattle.item_reader.specs.Counts.{capped, TimesIs, ItemIs, ItemsAre};

use lexer::At;
use lexer::number::number;
use lexer::word::word_at;
use model::refusal::Refusal;

// The lesser of a count and 65,537, so that no count can wrap.
fn cap(count: u64) -> u32
    ensures { result ≡ capped count }
{
    count.min(65537) as u32
}

// "(times " at `at`, the number behind it, and the space of the first item, at the next place.
fn times(line: &[u8], at: usize) -> Result<At<u32>, Refusal>
    ensures { TimesIs line.now at result }
{
    let Ok(digits) = word_at(line, at, b"(times ") else {
        return Err(Refusal::NoForm);
    };
    let Ok(count) = number(line, digits, 1, 99999) else {
        return Err(Refusal::NoForm);
    };
    if line.get(count.next) != Some(&b' ') {
        return Err(Refusal::NoForm);
    }
    Ok(count)
}

// An item at `at`: how many steps it stands for, 65,537 for any number above 65,536, and the place after it.
#[cycle(item_items)]
fn item(line: &[u8], at: usize) -> Result<At<u32>, Refusal>
    ensures { ItemIs line.now at result }
{
    if line.get(at) != Some(&b'(') {
        let Ok(station) = number(line, at, 0, 99) else {
            return Err(Refusal::NoForm);
        };
        return Ok(At {
            value: 1,
            next: station.next,
        });
    }
    let Ok(count) = times(line, at) else {
        return Err(Refusal::NoForm);
    };
    let Ok(inner) = items(line, count.next) else {
        return Err(Refusal::NoForm);
    };
    Ok(At {
        value: cap(u64::from(count.value) * u64::from(inner.value)),
        next: inner.next,
    })
}

// Items from `at` on, each behind a space, up to the closing bracket, and counted as an item is.
#[cycle(item_items)]
pub fn items(line: &[u8], at: usize) -> Result<At<u32>, Refusal>
    ensures { ItemsAre line.now at result }
{
    let mut place = at;
    let mut total: u32 = 0;
    while place < line.len() {
        if line[place] == b')' {
            return Ok(At {
                value: total,
                next: place + 1,
            });
        }
        if line[place] != b' ' {
            return Err(Refusal::NoForm);
        }
        let Ok(one) = item(line, place + 1) else {
            return Err(Refusal::NoForm);
        };
        total = cap(u64::from(total) + u64::from(one.value));
        place = one.next;
    }
    Err(Refusal::NoForm)
}
