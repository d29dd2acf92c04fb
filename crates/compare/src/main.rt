// Compares two tapes of one run: three file names, a run sheet and both tapes. It prints the line number, the tape and the
// culprit's line, or `none`, or the refusal.
// Relies on the comparison for everything but reading and writing.
#![tactic(auto)]

ghost use Rattle.std.specs.Prelude.{◌≤◌, length, IfOk};

use answer_writer::refused_line;
use input::read_all;
use model::Tap;
use model::refusal::Refusal;
use std::env::{Env, FillError};
use std::fmt::InlineText;
use std::rt::Files;
use std::{fs, io, str};
use tapes::comparing::{compare, part_of};

fn has_argument<R: Env>(rt: &R, number: usize) -> bool {
    let mut start = [0u8; 1];
    !matches!(rt.arg(number, &mut start), Err(FillError::NotPresent))
}

fn open<R: Files>(rt: &R, name: &[u8]) -> io::Result<R::File> {
    match str::from_utf8(name) {
        Ok(path) => fs::open(rt, path),
        Err(_) => Err(io::Error::new(io::ErrorKind::InvalidInput, "the name is not UTF-8")),
    }
}

fn read_named<R: Files>(rt: &R, name: &[u8], buffer: &mut [u8]) -> io::Result<usize>
    ensures { IfOk result (λ len. len ≤ length buffer.new) }
{
    let mut file = open(rt, name)?;
    read_all(&mut file, buffer).map_err(|part| part.error)
}

// A line with the name and the system's words for the error, without its number behind them.
fn complain<E: Print>(errors: &E, name: &[u8], error: io::Error) -> io::Result<()> {
    let text = InlineText::<256>::of(error);
    let all = text.as_str();
    let reason = match all.split_once(" (os error ") {
        Some((words, _)) => words,
        None => all,
    };
    errors.write_all(name)?;
    errors.write_all(b": ")?;
    errors.write_all(reason.as_bytes())?;
    errors.write_all(b"\n")
}

// The file that an argument names. Where it cannot be read, that is said. An argument that is longer than the name of any file
// counts as empty, which no file is named.
fn read_file<R: Env + Files, E: Print>(
    rt: &R,
    errors: &E,
    number: usize,
    buffer: &mut [u8],
) -> io::Result<usize>
    ensures { IfOk result (λ len. len ≤ length buffer.new) }
{
    let mut name = [0u8; 4096];
    let count = rt.arg(number, &mut name).unwrap_or(0);
    let read = read_named(rt, &name[..count], buffer);
    if let Err(error) = read {
        let _ = complain(errors, &name[..count], error);
    }
    read
}

fn print_refusal<P: Print>(rt: &P, refusal: Refusal) -> io::Result<()> {
    rt.write_all(refused_line(refusal).as_slice())?;
    rt.write_all(b"\n")
}

fn print_difference<P: Print>(rt: &P, line: usize, tap: Tap, culprit: &[u8]) -> io::Result<()> {
    print!(rt; "{line}")?;
    match tap {
        Tap::First => rt.write_all(b" 1 ")?,
        Tap::Second => rt.write_all(b" 2 ")?,
    }
    rt.write_all(culprit)?;
    rt.write_all(b"\n")
}

fn print_answer<P: Print>(rt: &P, sheet: &[u8], first: &[u8], second: &[u8]) -> io::Result<()> {
    match compare(sheet, first, second) {
        Err(refusal) => print_refusal(rt, refusal),
        Ok(None) => rt.write_all(b"none\n"),
        Ok(Some(found)) => {
            print_difference(rt, found.line, found.tap, part_of(first, second, found))
        }
    }
}

// Each buffer holds one byte more than what is compared: 32,768 bytes of a sheet, and 98,304 of a tape. A longer sheet is refused;
// a longer tape is not compared, since a part of it must not be taken for the whole. A failed write ends the program with no word.
fn main(rt: HostRuntime) {
    let errors = rt.stderr();
    if !has_argument(&rt, 3) || has_argument(&rt, 4) {
        let _ = errors.write_all(b"compare: the names of a sheet and of two tapes\n");
        return;
    }
    let mut sheet = [0u8; 32769];
    let mut first = [0u8; 98305];
    let mut second = [0u8; 98305];
    let Ok(end) = read_file(&rt, &errors, 1, &mut sheet) else {
        return;
    };
    let Ok(first_end) = read_file(&rt, &errors, 2, &mut first) else {
        return;
    };
    let Ok(second_end) = read_file(&rt, &errors, 3, &mut second) else {
        return;
    };
    if 98304 < first_end {
        let _ = errors.write_all(b"the first tape is too long\n");
        return;
    }
    if 98304 < second_end {
        let _ = errors.write_all(b"the second tape is too long\n");
        return;
    }
    let _ = print_answer(
        &rt,
        &sheet[..end],
        &first[..first_end],
        &second[..second_end],
    );
}
