// Proposals: of one station, and of several together. `single::propose` and `together::propose_all` are the public calls; one
// pair tried and one put in are shared with a sheet's line.
// Relies on the test of a board, the place of a station and the codec; the public calls and a sheet's line rely on it.
#![tactic(auto)]

pub mod lent;
pub mod naming;
pub mod single;
pub mod together;
pub mod trying;
