// Answers packed into one number. A refusal is any that converts to a number of a byte, that number itself too.
// Relies on a figure's bits; the calls for C rely on it.
#![tactic(auto)]

ghost use Rattle.std.specs.Prelude.{◌≡◌, cond, ◌+◌, ◌*◌, ◌≤◌};
ghost use Rattle.model.specs.Told.{told, standing_told};
ghost use Rattle.packing.specs.Packing.{bits, packed_at, packed, pack_verdict, pack_step, pack_run, pack_rounds, pack_standing};
ghost use Rattle.packing.specs.Packing.{pack_word, standing_part, Few, FewRounds, FewSteps};
ghost use Rattle.packing.specs.Numbered.{Numbered, verdict_of, run_of, rounds_of, standing_of};

use figures::bits_of;
use model::{Effort, Ran, RoundsPlayed, Standing, StepAnswer};

#[tactic(auto, using(crate::proofs::Laws::Numbered::numbered_ok), unfolding(crate::specs::Packing::pack_verdict, crate::specs::Numbered::verdict_of))]
pub fn verdict_number<E: Into<u8>>(answer: Result<(), E>) -> u8
    ensures { Numbered E.converts answer (λ a. result ≡ pack_verdict (verdict_of a)) }
{
    match answer {
        Ok(()) => 0,
        Err(refusal) => refusal.into(),
    }
}

// The place of the island or the flag in a step's answer.
const STEP_FIELD: u32 = 65536;

// The place of the island in the answer of how a station stands.
const STANDING_FIELD: u32 = 4096;

// An answer that tells a figure: its kind, at its place the island or the flag, and the figure.
#[tactic(auto, unfolding(crate::specs::Packing::packed_at, crate::specs::Packing::bits))]
fn packed_at(place: u32, kind: u8, field: u8, figure: i32) -> u64
    requires { place ≤ 65536 }
    ensures { result ≡ packed_at place 0 kind field (bits figure) }
{
    u64::from(kind) * 256
        + u64::from(field) * u64::from(place)
        + u64::from(bits_of(figure)) * 4294967296
}

// A read and whether its register was filled.
fn read_number(filled: bool) -> u64
    ensures { result ≡ 512 + cond filled 1 0 * 16777216 }
{
    512 + u64::from(filled) * 16777216
}

// A step that ends a collect, with the collect's total.
#[tactic(auto, unfolding(crate::specs::Packing::packed_at, crate::specs::Packing::bits))]
fn end_number(kind: u8, field: u8, figure: i32, total: u8) -> u64
    ensures { result ≡ packed 0 kind field (bits figure) + total * 16777216 }
{
    packed_at(STEP_FIELD, kind, field, figure) + u64::from(total) * 16777216
}

#[tactic(auto, unfolding(crate::specs::Packing::pack_step, crate::specs::Packing::pack_answer, crate::specs::Packing::packed_at, model::specs::Told::told))]
pub fn step_number(answer: StepAnswer) -> u64
    ensures { result ≡ pack_step (told answer) }
{
    match answer {
        StepAnswer::Wrote => 256,
        StepAnswer::Read { filled } => read_number(filled),
        StepAnswer::Went {
            island,
            figure,
            total,
        } => end_number(3, island, figure, total),
        StepAnswer::Marked {
            flag,
            figure,
            total,
        } => end_number(4, flag, figure, total),
        StepAnswer::Adopted {
            island,
            figure,
            total,
        } => end_number(5, island, figure, total),
        StepAnswer::Decided {
            island,
            figure,
            total,
        } => end_number(6, island, figure, total),
        StepAnswer::Spent {
            island,
            figure,
            total,
        } => end_number(7, island, figure, total),
        StepAnswer::Refused { number } => u64::from(number),
    }
}

// A refusal of a call whose answer has 64 bits: its number only.
fn refusal_number<E: Into<u8>>(refusal: E) -> u64
    ensures { E.converts refusal result }
{
    let number: u8 = refusal.into();
    u64::from(number)
}

#[tactic(auto, using(crate::proofs::Laws::Numbered::numbered_ok), unfolding(crate::specs::Packing::Few, crate::specs::Packing::pack_run, crate::specs::Numbered::run_of))]
pub fn run_number<E: Into<u8>>(answer: Result<Ran, E>) -> u64
    requires { Few answer }
    ensures { Numbered E.converts answer (λ a. result ≡ pack_run (run_of a)) }
{
    match answer {
        Ok(ran) => u64::from(ran.taken) * 256 + u64::from(ran.passed) * 4294967296,
        Err(refusal) => refusal_number(refusal),
    }
}

#[tactic(auto, using(crate::proofs::Laws::Numbered::numbered_ok), unfolding(crate::specs::Packing::FewRounds, crate::specs::Packing::pack_rounds, crate::specs::Numbered::rounds_of))]
pub fn rounds_number<E: Into<u8>>(answer: Result<RoundsPlayed, E>) -> u64
    requires { FewRounds answer }
    ensures { Numbered E.converts answer (λ a. result ≡ pack_rounds (rounds_of a)) }
{
    match answer {
        Ok(played) => u64::from(played.decided) * 256 + played.rounds as u64 * 65536,
        Err(refusal) => refusal_number(refusal),
    }
}

// Beside the steps, which have twelve bits; so their sum does not wrap.
#[tactic(auto, unfolding(crate::specs::Packing::standing_part, crate::specs::Packing::packed_at, crate::specs::Packing::bits, model::specs::Told::standing_told))]
fn stands_number(standing: Standing) -> u64
    ensures part { result ≡ standing_part (standing_told standing) }
    ensures room { result ≤ 18446744069415632895 }
{
    match standing {
        Standing::Idle => 256,
        Standing::Going { island, figure } => packed_at(STANDING_FIELD, 2, island, figure),
        Standing::Decided { island, figure } => packed_at(STANDING_FIELD, 3, island, figure),
        Standing::Spent { island, figure } => packed_at(STANDING_FIELD, 4, island, figure),
    }
}

#[tactic(auto, using(crate::proofs::Laws::Numbered::numbered_ok), unfolding(crate::specs::Packing::FewSteps, crate::specs::Packing::pack_standing, crate::specs::Packing::packed_at, crate::specs::Numbered::standing_of))]
pub fn standing_number<E: Into<u8>>(answer: Result<Effort, E>) -> u64
    requires { FewSteps answer }
    ensures { Numbered E.converts answer (λ a. result ≡ pack_standing (standing_of a)) }
{
    match answer {
        Ok(effort) => stands_number(effort.standing) + u64::from(effort.steps) * 1048576,
        Err(refusal) => refusal_number(refusal),
    }
}

// By the word's length.
#[tactic(auto, unfolding(crate::specs::Packing::pack_word))]
pub fn word_number(len: usize) -> u64
    requires { len ≤ 255 }
    ensures { result ≡ pack_word len }
{
    if len == 0 {
        return 0;
    }
    1 + len as u64 * 4294967296
}
