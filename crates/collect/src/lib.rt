// One register added to what a collect has seen, for each of the three arrays. An empty register adds nothing.
// Relies on the model's declared types and on the order of figures; the listing's reads rely on it.
#![tactic(auto)]

ghost use Rattle.std.specs.Prelude.{◌≡◌};
ghost use Rattle.model.specs.Listing.{Flag, adopt, commit};
ghost use Rattle.collect.specs.Collected.{noting, Kept, seeing, turn_of, AddsM, AddsA, Adds};

use figures::order::{larger, pair_above};
use model::marks::ADOPT;
use model::{Record, Register};

// The array that a station writes to and then collects.
#[derive(Clone, Copy)]
pub enum Turn {
    M,
    A,
    B,
}

// The flag that the station itself wrote does not matter.
pub fn see(turn: Turn, station: Record, register: Register) -> Record
    requires { Kept station }
    ensures { (f : Flag) → result ≡ seeing (turn_of turn f) station register }
{
    if register.mark == 0 { // empty: no figure to compare
        return station;
    }
    match turn {
        Turn::M => see_m(station, register.island, register.figure),
        Turn::A => see_a(station, register.figure),
        Turn::B if register.mark == ADOPT => see_adopt(station, register.figure),
        Turn::B => see_commit(station, register.figure),
    }
}

fn noted(station: Record, seen: u8, highest: u8, best: i32) -> Record
    ensures { result ≡ noting station seen highest best }
{
    Record {
        seen,
        highest,
        best,
        ..station
    }
}

// m: the best is the largest pair so far.
fn see_m(station: Record, island: u8, figure: i32) -> Record
    requires { Kept station }
    ensures { AddsM station island figure result }
{
    match station.seen {
        0 => noted(station, 1, island, figure),
        seen if pair_above(island, figure, station.highest, station.best) => noted(
            station, seen, island, figure,
        ),
        _ => station,
    }
}

// A: seen is 1 while every figure read is the same one, and 2 from the first that differs.
fn see_a(station: Record, figure: i32) -> Record
    requires { Kept station }
    ensures { AddsA station figure result }
{
    match station.seen {
        0 => noted(station, 1, 0, figure),
        1 if station.best != figure => noted(
            station,
            2,
            station.highest,
            larger(station.best, figure),
        ),
        seen => noted(station, seen, station.highest, larger(station.best, figure)),
    }
}

// B: adopts alone keep the largest; the first commit displaces them, and any other figure beside it makes seen 3.
fn see_adopt(station: Record, figure: i32) -> Record
    requires { Kept station }
    ensures { Adds adopt station figure result }
{
    match station.seen {
        0 => noted(station, 1, 0, figure),
        1 => noted(station, 1, station.highest, larger(station.best, figure)),
        2 => noted(station, 3, station.highest, station.best),
        _ => station,
    }
}

fn see_commit(station: Record, figure: i32) -> Record
    requires { Kept station }
    ensures { Adds commit station figure result }
{
    match station.seen {
        0 => noted(station, 2, 0, figure),
        1 => noted(station, 3, station.highest, figure),
        2 if station.best != figure => noted(station, 3, station.highest, station.best),
        _ => station,
    }
}
