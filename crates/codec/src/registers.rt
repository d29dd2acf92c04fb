// A register's eight bytes: mark, island, two zeros, figure.
// Relies on figures and cells; the soundness test and the calls rely on it.
ghost use Rattle.std.specs.Prelude.{◌≡◌, ◌+◌, ◌≤◌, length};
ghost use Rattle.model.specs.Bytes.{part, splice};
ghost use Rattle.model.specs.Layout.{read_register, lay_register};

use crate::cells::put;
use figures::{figure_at, figure_bytes};
use model::Register;

pub fn register_at(s: &[u8], at: usize) -> Register
    requires { at + 8 ≤ length s.now }
    ensures { result ≡ read_register (part at 8 s.now) }
{
    Register {
        mark: s[at],
        island: s[at + 1],
        figure: figure_at(s, at + 4),
    }
}

fn write_register(cell: &mut [u8], r: Register)
    requires { length cell.old ≡ 8 }
    ensures { cell.new ≡ lay_register r }
{
    put(cell, 0, [r.mark, r.island, 0, 0]);
    put(cell, 4, figure_bytes(r.figure));
}

// The register's part is lent from the middle of the board.
pub fn put_register(board: &mut [u8], at: usize, r: Register)
    requires { at + 8 ≤ length board.old }
    ensures { board.new ≡ splice at (lay_register r) board.old }
{
    write_register(&mut board[at..at + 8], r);
}
