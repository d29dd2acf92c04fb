// The phases of a station's record, byte 0 of it: a write and then a collect for each of m, A and B, and the two ends.
// Relies on nothing; every crate that tests or sets a phase relies on it.
pub const IDLE: u8 = 0;

pub const WRITE_M: u8 = 1;

pub const READ_M: u8 = 2;

pub const WRITE_A: u8 = 3;

pub const READ_A: u8 = 4;

pub const WRITE_B: u8 = 5;

pub const READ_B: u8 = 6;

pub const DECIDED: u8 = 7;

pub const SPENT: u8 = 8;
