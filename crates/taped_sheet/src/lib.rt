// The tape of a sheet in parts that fit a lent buffer, so that no tape is held in memory.
// Relies on the tape of a line; the program that writes a tape relies on it.
#![tactic(auto)]

ghost use Rattle.std.specs.Prelude.{◌≡◌, ◌≤◌, ◌<◌, ◌/◌, length};
ghost use Rattle.taped_line.specs.TapedLines.{Room};
ghost use Rattle.taped_sheet.specs.SheetParts.{MayFill, Kept, LineTried, PartIs, part_at};

use lines::line_end;
use model::refusal::Refusal;
use sheet::form::{LineForm, read_line};
use taped_line::{TapedLine, tape_read};
use taping::Taped;

// The bytes that were put in; the place of the sheet to go on from, with how many lines of the tape of the line there are
// written; and the board in force.
#[derive(Clone, Copy)]
pub struct SheetPart {
    pub len: usize,
    pub next: usize,
    pub done: usize,
    pub laid: usize,
}

// Whether a line of this form may take as many steps as there is room for. A round takes 272 at most: 16 stations, each with
// its turn of 17.
fn may_fill(form: Result<LineForm, Refusal>, rooms: usize) -> bool
    requires { 1 ≤ rooms }
    ensures { MayFill rooms form result }
{
    let Ok(form) = form else {
        return false;
    };
    match form {
        LineForm::Steps { count, .. } => rooms <= count as usize,
        LineForm::Rounds { rounds, .. } => rooms / 272 <= rounds,
        _ => false,
    }
}

// The memory before such a line is kept.
#[tactic(auto, using(crate::proofs::Laws::Keeping::keeping))]
fn keep(form: Result<LineForm, Refusal>, rooms: usize, memory: &[u8], kept: &mut [u8])
    requires { (1 ≤ rooms) × (length kept.old ≡ length memory.now) }
    ensures { Kept rooms form memory.now kept.new }
{
    if may_fill(form, rooms) {
        kept.copy_from_slice(memory);
    }
}

// A line taped. Where its tape fills the buffer, the memory is put back as it was before the line.
#[tactic(auto, using(crate::proofs::Laws::Keeping::gone_on))]
fn try_line(
    line: &[u8],
    laid: usize,
    memory: &mut [u8],
    kept: &mut [u8],
    out: &mut [u8],
    wanted: Taped,
) -> TapedLine
    requires { Room out.old wanted × (1 ≤ wanted.room) × (length kept.old ≡ length memory.old) }
    ensures { LineTried line.now laid memory.old out.old wanted result memory.new out.new }
{
    let form = read_line(line);
    keep(form, wanted.room, memory, kept);
    let tried = tape_read(line, form, laid, memory, out, wanted);
    if tried.taped.room == 0 {
        memory.copy_from_slice(kept);
    }
    tried
}

// A line whose tape fills the buffer is gone over again from the board before it, and the lines that are written are passed
// over then. For the memory before such a line a second one of the same length is lent.
pub fn next_part(
    sheet: &[u8],
    at: usize,
    done: usize,
    laid: usize,
    memory: &mut [u8],
    kept: &mut [u8],
    out: &mut [u8],
) -> SheetPart
    requires { (at < length sheet.now) × (56 ≤ length out.old) × (length kept.old ≡ length memory.old) }
    ensures { PartIs (part_at (length out.old / 56) sheet.now at done laid memory.old) result memory.new out.new }
{
    let end = line_end(sheet, at);
    let rooms = out.len() / 56;
    let wanted = Taped {
        left: done,
        room: rooms,
        len: 0,
    };
    let line = try_line(&sheet[at..end], laid, memory, kept, out, wanted);
    let len = line.taped.len;
    if line.taped.room == 0 {
        return SheetPart {
            len,
            next: at,
            done: done + rooms,
            laid,
        };
    }
    SheetPart {
        len,
        next: end + 1,
        done: 0,
        laid: line.laid,
    }
}
