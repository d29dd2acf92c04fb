// Two tapes of one run compared: the first line number at which both have a line and these differ, and whose line is the
// culprit's; by value, or as the part of the tape that the line is.
// Relies on the difference of two tapes, on the test of their lines and on the algorithm's own line; the C interface and the
// program that compares rely on it.
ghost use Rattle.tapes.specs.Comparing.{Compares, PartIs, PartTaken, Fits};
ghost use Rattle.model.specs.Tape as tape;
ghost use Rattle.model.specs.Tape.{culprit_part};

use crate::checking::entries_end;
use crate::culprit::culprit_of;
use crate::difference::first_difference;
use model::refusal::Refusal;
use model::{Difference, Tap};

// Refusals 1 and 21, of which 21 is for any line of either tape, and then the first difference, if there is one.
pub fn compare(sheet: &[u8], first: &[u8], second: &[u8]) -> Result<Option<Difference>, Refusal>
    ensures { Compares sheet.now first.now second.now result }
{
    if 32768 < sheet.len() {
        return Err(Refusal::SheetTooLong);
    }
    let found = first_difference(first, second);
    if entries_end(first) < first.len() {
        return Err(Refusal::NoTape);
    }
    if entries_end(second) < second.len() {
        return Err(Refusal::NoTape);
    }
    let Some(gap) = found else {
        return Ok(None);
    };
    let start = gap.start;
    let first_end = gap.first;
    let tap = culprit_of(sheet, gap.number, &first[start..first_end]);
    match tap {
        Tap::First => Ok(Some(Difference {
            line: gap.number,
            tap,
            start,
            len: first_end - start,
        })),
        Tap::Second => Ok(Some(Difference {
            line: gap.number,
            tap,
            start,
            len: gap.second - start,
        })),
    }
}

// The culprit's line on its tape.
pub fn part_of<'a>(first: &'a [u8], second: &'a [u8], found: Difference) -> &'a [u8]
    requires { Fits first.now second.now found }
    ensures { PartTaken first.entry second.entry found result }
{
    let start = found.start;
    match found.tap {
        Tap::First => &first[start..start + found.len],
        Tap::Second => &second[start..start + found.len],
    }
}

// The culprit's line without its LF; an empty part of the first tape where there is none, and beside a refusal.
pub fn culprit_line<'a>(sheet: &[u8], first: &'a [u8], second: &'a [u8]) -> &'a [u8]
    ensures { PartIs first.entry second.entry result (culprit_part first.now second.now (tape.compare sheet.now first.now second.now)) }
{
    match compare(sheet, first, second) {
        Ok(Some(found)) => part_of(first, second, found),
        Ok(None) => &first[..0],
        Err(_) => &first[..0],
    }
}
