// The rounds of `rounds`: the stations that each round names in its brackets, and what they need of a board.
// Relies on the lexer's numbers, on lists as they are read and on what rounds ask of a board; the reader of a line relies on it.
// It knows no board.
#![tactic(auto)]

ghost use Rattle.std.specs.Prelude.{[], ◌∷◌, ◌<◌};
ghost use Rattle.model.specs.Forms.{number_in, round_in};
ghost use Rattle.halts.specs.Needs.{climbs, needs};
ghost use Rattle.list_laws.specs.Lists.{ListIs};
ghost use Rattle.round_reader.specs.Rounds.{RoundIs};

use halts::{climbed, round_needs};
use lexer::At;
use lexer::number::{number, spaced_number};
use list_laws::Listed;
use model::refusal::Refusal;

// The station numbers from `at` on behind the first one, each behind a space, up to the closing bracket.
fn stations(line: &[u8], at: usize, first: u8) -> Result<At<Listed>, Refusal>
    requires { 0 < at }
    ensures { ListIs (number_in 0 99) (climbs 0) (first ∷ []) line.now at result }
{
    let mut place = at;
    let mut count = 1;
    let mut last = climbed(0, first);
    while place < line.len() {
        if line[place] == b')' {
            return Ok(At {
                value: Listed { count, needs: last },
                next: place + 1,
            });
        }
        let Ok(station) = spaced_number(line, place) else {
            return Err(Refusal::NoForm);
        };
        count += 1;
        last = climbed(last, station.value as u8);
        place = station.next;
    }
    Err(Refusal::NoForm)
}

// The round at `at`, of at most `most` stations: none at all, or a first one and those behind it.
fn round(line: &[u8], at: usize, most: u8) -> Result<At<Listed>, Refusal>
    ensures { RoundIs line.now at most result }
{
    if line.get(at) != Some(&b'(') {
        return Err(Refusal::NoForm);
    }
    let inner = at + 1;
    if line.get(inner) == Some(&b')') {
        return Ok(At {
            value: Listed { count: 0, needs: 0 },
            next: inner + 1,
        });
    }
    let Ok(first) = number(line, inner, 0, 99) else {
        return Err(Refusal::NoForm);
    };
    let Ok(named) = stations(line, first.next, first.value as u8) else {
        return Err(Refusal::NoForm);
    };
    let Listed { count, needs } = named.value;
    Ok(At {
        value: Listed {
            count,
            needs: round_needs(needs, count, most),
        },
        next: named.next,
    })
}

// The rounds from `at` on, each behind a space and of at most `most` stations, up to the closing bracket.
pub fn round_list(line: &[u8], at: usize, most: u8) -> Result<At<Listed>, Refusal>
    ensures { ListIs round_in (needs most) [] line.now at result }
{
    let mut place = at;
    let mut count = 0;
    let mut needs = 0;
    while place < line.len() {
        if line[place] == b')' {
            return Ok(At {
                value: Listed { count, needs },
                next: place + 1,
            });
        }
        if line[place] != b' ' {
            return Err(Refusal::NoForm);
        }
        let Ok(found) = round(line, place + 1, most) else {
            return Err(Refusal::NoForm);
        };
        count += 1;
        needs = needs.max(found.value.needs);
        place = found.next;
    }
    Err(Refusal::NoForm)
}
