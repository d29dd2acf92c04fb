// The marks of a register: in m and A that it is written, in B its flag.
// Relies on nothing; what a collect keeps and every move rely on it.
pub const WRITTEN: u8 = 1;

pub const ADOPT: u8 = 1;

pub const COMMIT: u8 = 2;
