// The whole board: soundness, and refusals 7 to 11 in checking order.
// Relies on shape, registers and records; every call over a lent board relies on it.
ghost use Rattle.std.specs.Prelude.{◌≡◌, ◌≤◌, length};
ghost use Rattle.std.proofs.Math.Option.{none};
ghost use Rattle.model.specs.Layout.{board_length};
ghost use Rattle.model.specs.Sound.{head_sound};
ghost use Rattle.model.specs.Sound as Model;
ghost use Rattle.model.specs.Calls.{board_refusal};
ghost use Rattle.model.specs.Told.{verdict};

use crate::registers::registers_sound;
use crate::shape::{islands_in_range, shape_refusal, stations_in_range};
use figures::zeros::{zero_pair, zero_word};
use model::refusal::Refusal;
use record_soundness::records::records_sound;

#[tactic(auto, using(crate::proofs::Laws::Rows::head_form))]
fn head_sound(s: &[u8]) -> bool
    requires { 8 ≤ length s.now }
    ensures { result ≡ head_sound s.now }
{
    zero_pair(s, 2) && zero_word(s, 4)
}

#[tactic(auto, using(crate::proofs::Laws::Verdicts::long_enough), unfolding(model::specs::Sound::sound))]
fn sound(board: &[u8], n: usize, k: usize) -> bool
    requires { (length board.now ≡ board_length n k) × (1 ≤ n) × (n ≤ 16) × (2 ≤ k) × (k ≤ 64) }
    ensures { result ≡ Model.sound n k board.now }
{
    head_sound(board) && registers_sound(board, n, k) && records_sound(board, n, k)
}

// Any bytes of any length are answered. A shorter board has no head to read n and K from.
#[tactic(auto, using(crate::proofs::Laws::Verdicts::checked))]
pub fn check_board(board: &[u8]) -> Result<(), Refusal>
    ensures { verdict result ≡ board_refusal board.now none }
{
    if board.len() < 8 {
        return Err(Refusal::TooShort);
    }
    let n = board[0];
    let k = board[1];
    shape_refusal(board, n, k, stations_in_range(n), islands_in_range(k))?;
    if !sound(board, usize::from(n), usize::from(k)) {
        return Err(Refusal::Unsound);
    }
    Ok(())
}
