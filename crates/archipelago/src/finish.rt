// The end of a collect: the next phase, or the decision, or the end of the islands.
// Totals are left at 0: the step puts them in, which counts filled registers.
// Relies on the crate's `Moved`; the reads rely on it.
ghost use Rattle.std.specs.Prelude.{◌≡◌, ◌<◌, eqb};
ghost use Rattle.model.specs.declared.StepAnswer.TheVariants.{Went};
ghost use Rattle.model.specs.Layout.{fields};
ghost use Rattle.model.specs.Listing.{nothing, Flag};
ghost use Rattle.model.specs.Listing as listing;
ghost use Rattle.collect.specs.Collected.{Kept, collected, with_seen, ended_seen, turn_of};
ghost use Rattle.archipelago.specs.Advanced.{Advanced, Finishes, decision, staying, begins, marks};

use crate::Moved;
use collect::Turn;
use model::marks::{ADOPT, COMMIT};
use model::phase::{DECIDED, SPENT, WRITE_A, WRITE_B, WRITE_M};
use model::{Record, StepAnswer};

pub fn stay(station: Record, answer: StepAnswer) -> Moved
    ensures { result ≡ staying station answer }
{
    Moved {
        station,
        written: None,
        answer,
    }
}

// The flag that the station itself wrote does not matter.
pub fn finish(turn: Turn, k: u8, station: Record) -> Moved
    requires kept { Kept station }
    requires island_lt_k { station.island < k }
    ensures { (f : Flag) → Finishes (turn_of turn f) k station result }
{
    let last = ended(station);
    match turn {
        Turn::M => went(last),
        Turn::A => marked(last),
        Turn::B if last.seen == 2 => decided(last, last.best),
        Turn::B => onward(k, last, last.best),
    }
}

// A phase begins: at position 0, with nothing seen.
fn start(station: Record, phase: u8, island: u8, flag: u8, carried: i32) -> Record
    ensures { result ≡ fields phase 0 island nothing flag station.proposal carried station }
{
    Record {
        phase,
        position: 0,
        island,
        seen: 0,
        highest: 0,
        flag,
        carried,
        best: 0,
        ..station
    }
}

// A collect that saw nothing ends as if the station's own pair had been all there was. A sound board never comes to this,
// since a collect reads the station's own register too; answering it all the same spares callers the proof.
fn ended(station: Record) -> Record
    requires { Kept station }
    ensures { result ≡ with_seen station (ended_seen station.island station.carried (collected station)) }
{
    if station.seen != 0 {
        return station;
    }
    Record {
        seen: 3,
        highest: station.island,
        best: station.carried,
        ..station
    }
}

// The best pair of m is the station's from here on.
fn went(last: Record) -> Moved
    ensures { result ≡ begins 3 last.highest 0 last last.best (Went last.highest 0 last.best) }
{
    let next = start(last, WRITE_A, last.highest, 0, last.best);
    stay(
        next,
        StepAnswer::Went {
            island: last.highest,
            total: 0,
            figure: last.best,
        },
    )
}

// Every figure that the collect of A read is the same one.
fn all_equal(station: Record) -> bool
    ensures { result ≡ eqb station.seen 1 }
{
    station.seen == 1
}

fn marked(last: Record) -> Moved
    ensures { result ≡ marks last (eqb last.seen 1) }
{
    let flag = if all_equal(last) { COMMIT } else { ADOPT };
    let next = start(last, WRITE_B, last.island, flag, last.best);
    stay(
        next,
        StepAnswer::Marked {
            flag,
            total: 0,
            figure: last.best,
        },
    )
}

fn decided(station: Record, figure: i32) -> Moved
    ensures { Advanced station (decision station.island figure) result }
{
    let next = start(station, DECIDED, station.island, 0, figure);
    stay(
        next,
        StepAnswer::Decided {
            island: station.island,
            total: 0,
            figure,
        },
    )
}

// An adopt: on to the next island, or spent at the last one.
fn onward(k: u8, station: Record, figure: i32) -> Moved
    requires { station.island < k }
    ensures { Advanced station (listing.onward k station.island figure) result }
{
    let island = station.island + 1;
    if island < k {
        let next = start(station, WRITE_M, island, 0, figure);
        return stay(
            next,
            StepAnswer::Adopted {
                island,
                total: 0,
                figure,
            },
        );
    }
    let next = start(station, SPENT, station.island, 0, figure);
    stay(
        next,
        StepAnswer::Spent {
            island: station.island,
            total: 0,
            figure,
        },
    )
}
