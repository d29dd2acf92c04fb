// Bytes put at a place of a board: what registers and records are written by.
// Relies on nothing of this crate; registers and records rely on it.
ghost use Rattle.std.specs.Prelude.{◌≡◌, ◌+◌, ◌≤◌, length};
ghost use Rattle.model.specs.Bytes.{splice};

// Of a length that is known as it is compiled, these are one store.
pub fn put<const N: usize>(board: &mut [u8], at: usize, bytes: [u8; N])
    requires { at + N ≤ length board.old }
    ensures { board.new ≡ splice at bytes.entry board.old }
{
    board[at..at + N].copy_from_slice(&bytes);
}
