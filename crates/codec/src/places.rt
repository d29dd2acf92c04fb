// Where the parts of a board stand, as numbers: the offsets of 01's layout.
// Relies on the layout's definitions; every call relies on it.
ghost use Rattle.std.specs.Prelude.{◌≡◌, ◌+◌, ◌*◌, ◌≤◌, ◌<◌};
ghost use Rattle.model.specs.Layout.{board_length, record_at};

// "Length is exactly 8 + 32n + 16nK". A run sheet asks for it before n and K are tested.
#[tactic(auto, using(crate::proofs::Laws::Places::product), unfolding(model::specs::Layout::board_length))]
pub fn board_length(n: usize, k: usize) -> usize
    requires { (n ≤ 255) × (k ≤ 255) }
    ensures { result ≡ board_length n k }
{
    8 + 32 * n + 16 * (n * k)
}

// The record of the station with index j.
#[tactic(auto, using(crate::proofs::Laws::Places::product), unfolding(model::specs::Layout::record_at))]
pub fn record_offset(n: usize, k: usize, j: usize) -> usize
    requires { (n ≤ 16) × (k ≤ 64) × (j < n) }
    ensures { result ≡ record_at n k j }
{
    8 + 8 * (n * (1 + 2 * k)) + 24 * j
}

// The register of station index j in the array with the given row: 0 is m, 1 + 2c is A of island c, 2 + 2c is B of it.
#[tactic(auto, using(crate::proofs::Laws::Places::product))]
pub fn register_offset(n: usize, row: usize, j: usize) -> usize
    requires { (n ≤ 16) × (row ≤ 129) × (j < n) }
    ensures { result ≡ 8 + 8 * (n * row + j) }
{
    8 + 8 * (n * row + j)
}
