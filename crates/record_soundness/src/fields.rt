// A record's fields as numbers, clause by clause in the order of model/specs/Sound.antt. Each clause is stated of the bytes
// that the layout gives the fields; that the other bytes are zero is tested where the bytes are read, in records.
// Relies on the layout; steps and records rely on it.
ghost use Rattle.std.specs.Prelude.{◌≡◌, ◌<◌};
ghost use Rattle.model.specs.Layout.{lay_record};
ghost use Rattle.model.specs.Sound.{flag_known, collecting, collect_zero, best_island_zero, best_zero, seen_known, fields_sound};
ghost use Rattle.record_soundness.specs.Groups.{laid, bounds_kept, always_kept};

use model::Record;
use model::phase::{READ_A, READ_B, READ_M, SPENT, WRITE_B};

#[tactic(auto, using(crate::proofs::Laws::Clauses::bounds_form))]
fn bounds_sound(f: Record, n: usize, k: usize) -> bool
    ensures { result ≡ bounds_kept n k f }
{
    f.phase <= SPENT
        && usize::from(f.position) < n
        && usize::from(f.island) < k
        && usize::from(f.highest) < k
}

// Two arms with one text: as one arm of two phases it costs some five instructions more a record.
#[tactic(auto, unfolding(model::specs::Sound::flag_known, model::specs::Layout::lay_record))]
fn flag_sound(f: Record) -> bool
    ensures { result ≡ laid flag_known f }
{
    match f.phase {
        WRITE_B => f.flag == 1 || f.flag == 2,
        READ_B => f.flag == 1 || f.flag == 2,
        _ => f.flag == 0,
    }
}

#[tactic(auto, unfolding(model::specs::Sound::collecting))]
pub fn is_collecting(f: Record) -> bool
    ensures { result ≡ laid collecting f }
{
    matches!(f.phase, READ_M | READ_A | READ_B)
}

#[tactic(auto, using(crate::proofs::Laws::Clauses::collect_form))]
fn collect_zero(f: Record) -> bool
    ensures { result ≡ laid collect_zero f }
{
    is_collecting(f) || f.position == 0 && f.seen == 0 && f.best == 0
}

#[tactic(auto, unfolding(model::specs::Sound::best_island_zero, model::specs::Layout::lay_record))]
fn best_island_zero(f: Record) -> bool
    ensures { result ≡ laid best_island_zero f }
{
    f.phase == READ_M || f.highest == 0
}

#[tactic(auto, using(crate::proofs::Laws::Clauses::best_form))]
fn best_zero(f: Record) -> bool
    ensures { result ≡ laid best_zero f }
{
    f.seen != 0 || f.highest == 0 && f.best == 0
}

#[tactic(auto, unfolding(model::specs::Sound::seen_known, model::specs::Layout::lay_record))]
fn seen_known(f: Record) -> bool
    ensures { result ≡ laid seen_known f }
{
    match f.phase {
        READ_M => f.seen <= 1,
        READ_A => f.seen <= 2,
        _ => f.seen <= 3,
    }
}

// The clauses on what a record holds whether it collects or not.
#[tactic(auto, using(crate::proofs::Laws::Clauses::always))]
fn always_sound(f: Record, n: usize, k: usize) -> bool
    requires { 0 < f.phase }
    ensures { result ≡ always_kept n k f }
{
    bounds_sound(f, n, k) && flag_sound(f)
}

// Of a station that is not idle: of one that is, every byte is tested, in records.
#[tactic(auto, unfolding(model::specs::Sound::fields_sound))]
pub fn fields_sound(f: Record, n: usize, k: usize) -> bool
    requires { 0 < f.phase }
    ensures { result ≡ fields_sound n k f.phase (lay_record f) }
{
    always_sound(f, n, k) && collect_zero(f) && best_island_zero(f) && best_zero(f) && seen_known(f)
}
