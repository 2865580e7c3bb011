// Runs `route` over cases from standard input and prints what each call handed back. A case is the number n, n
// predecessors, the station and the output's length, each a u16, little-endian. Before a call every entry of the output
// is the same number, so that the whole output, printed behind the answer, shows which entries were written.
// tests/make_route_cases.py writes the cases and, by rules of its own, the text that this program must print.
#![tactic(auto)]

use cases_io::Streams;
use route::RouteRefusal;
use std::io;

// What stands in the output before a call: no station of any case.
const CANARY: u16 = 43690;

// A table's or an output's greatest length in a case.
const SPACE: usize = 4096;

// The next number of the input; past its end 0, which the printed line then shows.
fn read_number(rt: &Streams) -> u16 {
    u16::from_le_bytes(rt.read_array())
}

fn print_answer<R: Print>(rt: &R, answer: Result<Option<usize>, RouteRefusal>) -> io::Result<()> {
    match answer {
        Ok(Some(count)) => print!(rt; "found {count}"),
        Ok(None) => print!(rt; "no route"),
        Err(refusal) => print!(rt; "refused {}", refusal.number()),
    }
}

fn run_call<R: Print>(rt: &R, preds: &[u16], station: u16, out: &mut [u16]) -> io::Result<()> {
    out.fill(CANARY);
    print_answer(rt, route::route(preds, station, out))?;
    print!(rt; ":")?;
    for entry in out.iter() {
        print!(rt; " {entry}")?;
    }
    println!(rt; "")
}

// Runs one case, and says whether to go on.
fn run_case(rt: &Streams, table: &mut [u16], space: &mut [u16]) -> io::Result<bool> {
    let mut head = [0u8; 2];
    if rt.read(&mut head) < 2 {
        return Ok(false);
    }
    let Some(preds) = table.get_mut(..usize::from(u16::from_le_bytes(head))) else {
        println!(rt; "no space")?;
        return Ok(false);
    };
    for pred in preds.iter_mut() {
        *pred = read_number(rt);
    }
    let station = read_number(rt);
    let room = read_number(rt);
    match space.get_mut(..usize::from(room)) {
        Some(out) => run_call(rt, preds, station, out)?,
        None => println!(rt; "no space")?,
    }
    Ok(true)
}

// Runs the cases in turn.
fn run_cases(rt: &Streams, table: &mut [u16], space: &mut [u16]) -> io::Result<()> {
    for _ in 0..u64::MAX {
        if !run_case(rt, table, space)? {
            break;
        }
    }
    Ok(())
}

fn main() {
    let mut table = [0u16; SPACE];
    let mut space = [0u16; SPACE];
    let _ = run_cases(&Streams, &mut table, &mut space);
}
