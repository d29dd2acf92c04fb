// The pairs of `propose`: a station and its figure in brackets, and how many pairs a line has.
// Relies on the lexer's numbers and on lists as they are read; the reader of a line relies on it. It knows no board.
#![tactic(auto)]

ghost use Rattle.std.specs.Prelude.{[]};
ghost use Rattle.model.specs.Forms.{pair_in};
ghost use Rattle.list_laws.specs.Lists.{ListIs};
ghost use Rattle.pair_reader.specs.Pairs.{PairIs, need_nothing};

use lexer::At;
use lexer::number::{number, spaced_figure};
use list_laws::Listed;
use model::refusal::Refusal;

// A station and the figure that is proposed for it.
#[derive(Clone, Copy)]
pub struct Pair {
    pub station: u8,
    pub figure: i32,
}

fn pair_at(line: &[u8], at: usize) -> Result<At<Pair>, Refusal>
    ensures { PairIs line.now at result }
{
    if line.get(at) != Some(&b'(') {
        return Err(Refusal::NoForm);
    }
    let Ok(station) = number(line, at + 1, 0, 99) else {
        return Err(Refusal::NoForm);
    };
    let Ok(figure) = spaced_figure(line, station.next) else {
        return Err(Refusal::NoForm);
    };
    if line.get(figure.next) != Some(&b')') {
        return Err(Refusal::NoForm);
    }
    Ok(At {
        value: Pair {
            station: station.value as u8,
            figure: figure.value,
        },
        next: figure.next + 1,
    })
}

// The pairs from `at` on, each behind a space, up to the closing bracket. What they ask of a board is tried pair by pair, and so
// they need nothing here.
pub fn pair_list(line: &[u8], at: usize) -> Result<At<Listed>, Refusal>
    ensures { ListIs pair_in need_nothing [] line.now at result }
{
    let mut place = at;
    let mut count = 0;
    while place < line.len() {
        if line[place] == b')' {
            return Ok(At {
                value: Listed { count, needs: 0 },
                next: place + 1,
            });
        }
        if line[place] != b' ' {
            return Err(Refusal::NoForm);
        }
        let Ok(found) = pair_at(line, place + 1) else {
            return Err(Refusal::NoForm);
        };
        count += 1;
        place = found.next;
    }
    Err(Refusal::NoForm)
}
