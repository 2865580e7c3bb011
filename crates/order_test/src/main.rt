// Compares maps from standard input two by two and prints what the naming call answers and the bytes of the image that
// the other call hands back. Which of the two images that is shows by their bytes wherever these differ; a reference
// cannot be printed. tests/make_order_cases.py writes the cases and, by rules of its own, the text that this program
// must print.
//
// The input is a row of cases, as the crate cases_io reads maps: a label, the bytes of the case, which are images one
// behind the other, and its calls. A call is the offset and the length of the first image and of the second (four u32),
// the number of its changes (u8), and the changes. It prints one line.

#![tactic(auto)]

mod answers;

use answers::Answered;
use cases_io::{Part, Streams, change_bytes, run_cases};
use image::bytes::byte_at;
use order::{compare, lesser};
use std::io;
use tables_io::Table;

// The most bytes of a case: those of three full maps.
const BYTES: usize = 200000;

// Prints what both calls give for two images.
fn print_order<R: Print>(rt: &R, first: &[u8], second: &[u8]) -> io::Result<()> {
    print!(rt; ": {}", Answered(compare(first, second)))?;
    println!(rt; ", handed back{}", Table(lesser(first, second)))
}

// Makes the changes of a call and prints its line.
fn answer_call(rt: &Streams, bytes: &mut [u8], call: &[u8]) -> io::Result<()> {
    change_bytes(rt, bytes, byte_at(call, 16))?;
    let first = Part::named(call, 0);
    let second = Part::named(call, 8);
    print!(rt; " {} bytes at {}", first.count, first.from)?;
    print!(rt; ", {} bytes at {}", second.count, second.from)?;
    print_order(rt, first.of(bytes), second.of(bytes))
}

fn main() {
    let mut space = [0u8; BYTES];
    let _ = run_cases::<_, 17, _>(&Streams, &mut space, |bytes, call| {
        answer_call(&Streams, bytes, call)
    });
}
