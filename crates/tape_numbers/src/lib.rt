// The answer of a comparison as numbers: one by value, and two put into a lent list. A refusal is any that converts to a number
// of a byte, that number itself too.
// Relies on the declared types and on what the packing says of a refusal; the calls for C rely on it.
#![tactic(auto)]

ghost use Rattle.std.specs.Prelude.{◌≡◌, ◌≤◌, length};
ghost use Rattle.model.specs.Told.{tap_told};
ghost use Rattle.packing.specs.Numbered.{Numbered};
ghost use Rattle.tape_numbers.specs.Numbers.{tap_number, refusal_number, two_in, two_fit, TwoFit};
ghost use Rattle.tape_numbers.specs.Compared.{comparison_of, found_of, culprit_of, start_of, length_of};

use model::{Difference, Tap};

// For a list without room: neither a refusal nor a tape has this number.
const NO_ROOM: u8 = 255;

#[tactic(auto, unfolding(model::specs::Told::tap_told, crate::specs::Numbers::tap_number))]
fn tap_number(tap: Tap) -> u8
    ensures { result ≡ tap_number (tap_told tap) }
{
    match tap {
        Tap::First => 1,
        Tap::Second => 2,
    }
}

// Two numbers at the front of a list.
#[tactic(auto, unfolding(crate::specs::Numbers::two_in))]
fn put_two(list: &mut [u64], a: u64, b: u64)
    requires { 2 ≤ length list.old }
    ensures { list.new ≡ two_in a b list.old }
{
    list[0] = a;
    list[1] = b;
}

// The refusal's number, and in the list the line number and its tape.
#[tactic(auto, unfolding(crate::specs::Numbers::TwoFit, packing::specs::Numbered::Numbered, crate::specs::Numbers::refusal_number, crate::specs::Numbers::two_fit, crate::specs::Compared::comparison_of, crate::specs::Compared::found_of, model::specs::Told::tap_told))]
pub fn put_found<E: Into<u8> + Drop>(answer: Result<Option<Difference>, E>, found: &mut [u64]) -> u8
    ensures number { TwoFit found.old (Numbered E.converts answer (λ a. result ≡ refusal_number (comparison_of a))) (result ≡ 255) }
    ensures list { found.new ≡ two_fit found.old (found_of answer found.old) found.old }
{
    if found.len() < 2 {
        return NO_ROOM;
    }
    match answer {
        Ok(None) => put_two(found, 0, 0),
        Ok(Some(differs)) => put_two(
            found,
            differs.line as u64,
            u64::from(tap_number(differs.tap)),
        ),
        Err(refusal) => return refusal.into(),
    }
    0
}

// The tape of the culprit's line, 0 for none, and in the list the line's place on that tape and its length.
#[tactic(auto, unfolding(crate::specs::Numbers::two_fit, crate::specs::Compared::culprit_of, crate::specs::Compared::start_of, crate::specs::Compared::length_of))]
pub fn put_part<E: Drop>(answer: Result<Option<Difference>, E>, part: &mut [u64]) -> u8
    ensures number { result ≡ two_fit part.old (culprit_of answer) 255 }
    ensures list { part.new ≡ two_fit part.old (two_in (start_of answer) (length_of answer) part.old) part.old }
{
    if part.len() < 2 {
        return NO_ROOM;
    }
    let Ok(Some(differs)) = answer else {
        put_two(part, 0, 0);
        return 0;
    };
    put_two(part, differs.start as u64, differs.len as u64);
    tap_number(differs.tap)
}
