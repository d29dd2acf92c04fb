// The calls that compare two tapes, for C: the answer's two numbers go to the front of a lent list.
// Relies on the comparison and on its answer as numbers; a station's firmware relies on it.
ghost use Rattle.std.specs.Prelude.{◌≡◌, length};
ghost use Rattle.model.specs.Tape.{compare, culprit_part};
ghost use Rattle.tape_numbers.specs.Numbers.{refusal_number, culprit_number, two_in, found_in, two_fit};

use tape_numbers::{put_found, put_part};

#[unsafe(no_mangle)]
pub extern "C" fn lufanelis_compare(
    sheet: &[u8],
    first: &[u8],
    second: &[u8],
    found: &mut [u64],
) -> u8
    ensures { (result ≡ two_fit found.old (refusal_number (compare sheet.now first.now second.now)) 255)
        × (found.new ≡ two_fit found.old (found_in (compare sheet.now first.now second.now) found.old) found.old) }
{
    put_found(tapes::comparing::compare(sheet, first, second), found)
}

#[unsafe(no_mangle)]
pub extern "C" fn lufanelis_culprit(
    sheet: &[u8],
    first: &[u8],
    second: &[u8],
    part: &mut [u64],
) -> u8
    ensures { (result ≡ two_fit part.old (culprit_number (compare sheet.now first.now second.now)) 255)
        × (part.new ≡ two_fit part.old (two_in (culprit_part first.now second.now (compare sheet.now first.now second.now)).start
        (length (culprit_part first.now second.now (compare sheet.now first.now second.now)).bytes) part.old) part.old) }
{
    put_part(tapes::comparing::compare(sheet, first, second), part)
}
