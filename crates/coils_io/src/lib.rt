// The program `coils`: it reads the map `yard.map` in the working folder, then coil records on standard input, and
// writes each record's line before it waits for the next (01, "Route, whole check, program"). What is made of the bytes
// is proved in the crate `coil`; here are only reading and writing, of which no contract can speak.

#![tactic(auto)]

ghost use Rattle.std.specs.Prelude.{◌≡◌, ◌⊎◌, pos};
ghost use Rattle.std.specs.Process.{exit_status};

use coil::ROOM;
use coil::program::{FILE, RECORD, answer_turn, image_of};
use std::fmt::InlineText;
use std::io::Error;
use std::ops::ControlFlow;
use std::process::ExitCode;
use std::rt::Files;
use std::{fs, io};
use streams::{read_full, write_all};

// Room for what std prints of an error: at most 256 bytes of text, and the error's number.
const ERROR_ROOM: usize = 320;

// Writes a line to standard error: what failed, a colon and the system's text for the error, without its number, which
// std puts behind it.
fn fail<R: Eprint>(rt: &R, what: &str, error: Error) {
    let printed = InlineText::<ERROR_ROOM>::of(error);
    let all = printed.as_str();
    let text = all
        .rsplit_once(" (os error ")
        .map_or(all, |(front, _)| front);
    let _ = eprintln!(rt; "{what}: {text}");
}

// Reads the map file into the buffer.
fn read_map<R: Files>(rt: &R, buffer: &mut [u8; FILE]) -> io::Result<usize> {
    let mut file = fs::open(rt, "yard.map")?;
    let read = read_full(&mut file, buffer);
    read.end?;
    Ok(read.size)
}

// Reads a record, or what is left of the input, and writes what it prints. A read error is the end of the input. At the
// end it says whether all was read and written.
fn answer_next<R: Print + Eprint, I: io::Read>(
    rt: &R,
    input: &mut I,
    image: &[u8],
) -> ControlFlow<bool> {
    let mut bytes = [0u8; RECORD];
    let read = read_full(input, &mut bytes);
    if let Err(error) = read.end {
        fail(rt, "standard input", error);
    }
    let mut line = [0u8; ROOM];
    let turn = answer_turn(image, &bytes, read.size, &mut line);
    let size = turn.size;
    if let Err(error) = write_all(&mut io::writer(rt), &line[..size]) {
        fail(rt, "standard output", error);
        return ControlFlow::Break(false);
    }
    if turn.more {
        ControlFlow::Continue(())
    } else {
        ControlFlow::Break(read.end.is_ok())
    }
}

// Answers the records in turn, and says whether all was read and written. The turns are counted, as the calls in
// `streams` are.
fn answer_records<R: Input + Print + Eprint>(rt: &R, image: &[u8]) -> bool {
    let mut input = rt.reader();
    for _ in 0..u64::MAX {
        if let ControlFlow::Break(well) = answer_next(rt, &mut input, image) {
            return well;
        }
    }
    true
}

// Runs the program, and gives its exit status: 0 if all was read and written, and 1 otherwise. A map that can't be
// opened or read is empty. A number and no ExitCode: the clause states it of coils_run.
pub fn coils_run<R: Files + Input + Print + Eprint>(rt: &R) -> i32
    ensures status { (result ≡ pos 0) ⊎ (result ≡ pos 1) }
{
    let mut buffer = [0u8; FILE];
    let map = read_map(rt, &mut buffer);
    if let Err(error) = map {
        fail(rt, "yard.map", error);
    }
    let image = image_of(&buffer, map.unwrap_or(0));
    let answered = answer_records(rt, image);
    i32::from(map.is_err() || !answered)
}

// The same as that with which a program ends.
pub fn exit_code<R: Files + Input + Print + Eprint>(rt: &R) -> ExitCode
    ensures status { (exit_status result ≡ 0) ⊎ (exit_status result ≡ 1) }
{
    if coils_run(rt) == 0 {
        ExitCode::SUCCESS
    } else {
        ExitCode::FAILURE
    }
}
