// The texts of the line that `show` hands back: its opening word, and a station's status with its number, word, island and
// figure.
// Relies on the line, on numbers and on how a station stands; the call that shows a board relies on it, and the writer of a
// tape line on a word with its number and figure.
ghost use Rattle.std.specs.Prelude.{◌≡◌, ◌+◌, ◌≤◌, ◌++◌, length};
ghost use Rattle.model.specs.Bytes.{splice};
ghost use Rattle.model.specs.Layout.{record_value};
ghost use Rattle.model.specs.Show.{status, text};
ghost use Rattle.shown.specs.Texts.{status_of, standing_bytes};

use crate::standing::standing_of;
use line_writer::line::Line;
use model::{Record, Standing};

#[tactic(auto, unfolding(model::specs::Show::text, model::specs::Show::text_from))]
pub fn opened() -> Line
    ensures { result ≡ text "(stations" }
{
    let mut line = Line::new();
    line.push_word(b"(stations");
    line
}

// One station's part of the line; `i` is its number, from 1.
#[tactic(auto, unfolding(crate::specs::Texts::status_of, model::specs::Show::text, model::specs::Show::text_from))]
pub fn write_status(line: &mut Line, i: u8, station: Record)
    requires { length line.old + length (status_of i (record_value station)) ≤ 512 }
    ensures { line.new ≡ line.old ++ status_of i (record_value station) }
{
    line.push_word(b" (");
    line.push_decimal(u32::from(i));
    line.push(b' ');
    write_phase(line, station);
    line.push(b')');
}

#[tactic(auto, using(crate::proofs::Statuses::words), unfolding(model::specs::Show::text, model::specs::Show::text_from))]
fn write_phase(line: &mut Line, station: Record)
    requires { length line.old + length (status (record_value station)) ≤ 512 }
    ensures { line.new ≡ line.old ++ status (record_value station) }
{
    match standing_of(station) {
        Standing::Idle => line.push_word(b"idle"),
        Standing::Going { island, figure } => push_standing(line, b"going", island, figure),
        Standing::Decided { island, figure } => push_standing(line, b"decided", island, figure),
        Standing::Spent { island, figure } => push_standing(line, b"spent", island, figure),
    }
}

// A word with a number and a figure.
#[tactic(auto, unfolding(crate::specs::Texts::standing_bytes, model::specs::Show::text, model::specs::Show::text_from))]
pub fn push_standing(line: &mut Line, word: &[u8], island: u8, figure: i32)
    requires { length line.old + length (standing_bytes word.now island figure) ≤ 512 }
    ensures { line.new ≡ line.old ++ standing_bytes word.now island figure }
{
    line.push_word(word);
    line.push(b' ');
    line.push_decimal(u32::from(island));
    line.push(b' ');
    line.push_figure(figure);
}

// The same at a place of lent bytes, whatever stands before and behind; what is handed back is where it ends.
pub fn write_standing(
    bytes: &mut [u8; 512],
    at: usize,
    word: &[u8],
    island: u8,
    figure: i32,
) -> usize
    requires { at + length (standing_bytes word.now island figure) ≤ 512 }
    ensures bytes { bytes.new ≡ splice at (standing_bytes word.now island figure) bytes.old }
    ensures end { result ≡ at + length (standing_bytes word.now island figure) }
{
    let mut line = Line::new();
    push_standing(&mut line, word, island, figure);
    let end = at + line.len();
    bytes[at..end].copy_from_slice(line.as_slice());
    end
}
