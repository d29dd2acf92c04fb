// A record against the station's own register: what it says it wrote stands there, and a collect that has passed it has seen it.
// Relies on codec's registers and on the order of figures; records rely on it.
ghost use Rattle.std.specs.Prelude.{◌≡◌, ◌+◌, ◌*◌, ◌≤◌, ◌<◌, eqb, length};
ghost use Rattle.model.specs.Bytes.{part};
ghost use Rattle.model.specs.Listing.{filled, flag_of, flag_number, turn_m, turn_a, turn_b};
ghost use Rattle.model.specs.Layout.{board_length, read_register, register_value, record_value, reading_of};
ghost use Rattle.model.specs.Sound.{same_register};
ghost use Rattle.record_soundness.specs.Groups.{own_kept};

use codec::places::register_offset;
use codec::registers::register_at;
use figures::order::{above, pair_above, same};
use model::phase::{READ_A, READ_B, READ_M};
use model::{Record, Register};

#[tactic(auto, using(crate::proofs::Laws::Held::same_side))]
fn same_flag(mark: u8, flag: u8) -> bool
    ensures { result ≡ eqb (flag_number (flag_of mark)) (flag_number (flag_of flag)) }
{
    (mark < 2) == (flag < 2)
}

// The register holds this flag, island and figure.
#[tactic(auto, using(crate::proofs::Laws::Held::held))]
fn held(r: Register, flag: u8, island: u8, figure: i32) -> bool
    ensures { result ≡ same_register (register_value r) (filled (flag_of flag) island figure) }
{
    r.mark != 0 && same_flag(r.mark, flag) && r.island == island && same(r.figure, figure)
}

// The register of station index i in a row of n.
fn column(s: &[u8], n: usize, row: usize, i: usize) -> Register
    requires { (8 + 8 * (n * row + i) + 8 ≤ length s.now) × (n ≤ 16) × (row ≤ 129) × (i < n) }
    ensures { result ≡ read_register (part (8 + 8 * (n * row + i)) 8 s.now) }
{
    register_at(s, register_offset(n, row, i))
}

// Phase 2: the pair of island and carried figure, and the best pair no lower.
#[tactic(auto, using(crate::proofs::Laws::Own::in_m))]
fn own_in_m(s: &[u8], n: usize, i: usize, f: Record) -> bool
    requires { (16 + 8 * i ≤ length s.now) × (n ≤ 16) × (i < n) }
    ensures { result ≡ own_kept n i s.now (reading_of turn_m f) }
{
    held(column(s, n, 0, i), 1, f.island, f.carried)
        && (usize::from(f.position) <= i
            || f.seen != 0 && !pair_above(f.island, f.carried, f.highest, f.best))
}

// Phase 4: the carried figure, and the best figure no lower.
#[tactic(auto, using(crate::proofs::Laws::Own::in_a))]
fn own_in_a(s: &[u8], n: usize, k: usize, i: usize, f: Record) -> bool
    requires { (length s.now ≡ board_length n k) × (n ≤ 16) × (k ≤ 64) × (i < n) × (f.island < k) }
    ensures { result ≡ own_kept n i s.now (reading_of turn_a f) }
{
    let row = 1 + 2 * usize::from(f.island);
    held(column(s, n, row, i), 1, 0, f.carried)
        && (usize::from(f.position) <= i || f.seen != 0 && !above(f.carried, f.best))
}

// Phase 6: the flag and the carried figure.
#[tactic(auto, using(crate::proofs::Laws::Own::in_b))]
fn own_in_b(s: &[u8], n: usize, k: usize, i: usize, f: Record) -> bool
    requires { (length s.now ≡ board_length n k) × (n ≤ 16) × (k ≤ 64) × (i < n) × (f.island < k) }
    ensures { result ≡ own_kept n i s.now (reading_of (turn_b (flag_of f.flag)) f) }
{
    let row = 2 + 2 * usize::from(f.island);
    held(column(s, n, row, i), f.flag, 0, f.carried)
        && (usize::from(f.position) <= i || f.seen != 0)
}

#[tactic(auto, using(crate::proofs::Laws::Own::by_phase))]
pub fn own_sound(s: &[u8], n: usize, k: usize, i: usize, f: Record) -> bool
    requires { (length s.now ≡ board_length n k) × (n ≤ 16) × (k ≤ 64) × (i < n) × (f.island < k) }
    ensures { result ≡ own_kept n i s.now (record_value f) }
{
    match f.phase {
        READ_M => own_in_m(s, n, i, f),
        READ_A => own_in_a(s, n, k, i, f),
        READ_B => own_in_b(s, n, k, i, f),
        _ => true,
    }
}
