// Runs both searches over cases from standard input and prints the whole of what each call handed back: its answer
// and every entry of the five lent tables. tests/make_search_cases.py writes the cases and, by searches of its own,
// the text that this program must print.
//
// The input is a row of maps, as the crate cases_io reads them. A call is the source, the strip's length and the
// lengths of times, moves, predecessors, marks and page list (seven u16), the number of changes (u8), and the changes.
// It runs the plain search and then the DF search.

#![tactic(auto)]

use cases_io::{BYTES, Streams, change_bytes, run_cases};
use image::bytes::{byte_at, word_at};
use searches_io::run_search;
use std::io;

fn print_call<R: Print>(rt: &R, call: &[u8]) -> io::Result<()> {
    let source = word_at(call, 0);
    let strip = word_at(call, 2);
    print!(rt;
        " from {source}, strip {strip}, tables {}",
        word_at(call, 4)
    )?;
    for at in [6, 8, 10, 12] {
        print!(rt; " {}", word_at(call, at))?;
    }
    println!(rt; "")
}

// Prints a call, makes its changes and runs both searches.
fn answer_call(rt: &Streams, image: &mut [u8], call: &[u8]) -> io::Result<()> {
    print_call(rt, call)?;
    change_bytes(rt, image, byte_at(call, 14))?;
    print!(rt; "  plain: ")?;
    run_search(rt, search::calls::plain, image, call)?;
    print!(rt; "  df: ")?;
    run_search(rt, search::calls::df, image, call)
}

fn main() {
    let mut space = [0u8; BYTES];
    let _ = run_cases::<_, 15, _>(&Streams, &mut space, |image, call| {
        answer_call(&Streams, image, call)
    });
}
