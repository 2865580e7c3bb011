// Replays page lists from standard input (02, C-20) and prints for each call the number of reads or the refusal.
// tests/make_store_cases.py writes the cases and, by rules of its own, the text that this program must print.
//
// The input is a row of cases, as the crate cases_io reads maps: a label, the bytes of the case, and its calls. Among
// the bytes are page lists, an entry a byte, and tables of distances, an entry a u32; past the end of the bytes the
// entries of a table are 0. A call is the offset and the length of the list and of the table (four u32, lengths in
// entries), P and F (two u64), D (u32), the number of its changes (u8), and the changes. It prints one line.

#![tactic(auto)]

use cases_io::{Part, Streams, bytes_at, change_bytes, run_cases};
use image::bytes::{byte_at, part_of};
use std::io;
use store::{ReplayRefusal, replay};

// The most bytes of a case: those of a full table, of 57,600 entries, and of lists of 79,600 entries together.
const BYTES: usize = 310000;

// The longest table of a call.
const ENTRIES: usize = 66000;

// Copies the entries that begin at an offset to a table of their number, as far as the bytes reach.
fn read_table(bytes: &[u8], at: u32, table: &mut [u32]) {
    let words = part_of(bytes, at as usize, bytes.len()).chunks(4);
    for (entry, word) in table.iter_mut().zip(words) {
        *entry = u32::from_le_bytes(bytes_at(word, 0));
    }
}

// Replays the list of a call with its distances in a table of their number. The table stands first in a function of its
// own: behind other statements it would be cleared twice.
fn replayed(bytes: &[u8], call: &[u8]) -> Result<usize, ReplayRefusal> {
    let mut table = [0u32; ENTRIES];
    let distances = Part::named(call, 8);
    let table = &mut table[..(distances.count as usize).min(ENTRIES)];
    read_table(bytes, distances.from, table);
    let list = Part::named(call, 0).of(bytes);
    let pages = u64::from_le_bytes(bytes_at(call, 16)) as usize;
    let frames = u64::from_le_bytes(bytes_at(call, 24)) as usize;
    let threshold = u32::from_le_bytes(bytes_at(call, 32));
    replay(list, pages, frames, table, threshold)
}

// Prints a call.
fn print_call<R: Print>(rt: &R, call: &[u8]) -> io::Result<()> {
    let list = Part::named(call, 0);
    let distances = Part::named(call, 8);
    let pages = u64::from_le_bytes(bytes_at(call, 16));
    let frames = u64::from_le_bytes(bytes_at(call, 24));
    let threshold = u32::from_le_bytes(bytes_at(call, 32));
    print!(rt; " list {} at {}", list.count, list.from)?;
    print!(rt; ", table {} at {}", distances.count, distances.from)?;
    print!(rt; ", P {pages}, F {frames}, D {threshold}: ")
}

fn print_answer<R: Print>(rt: &R, answer: Result<usize, ReplayRefusal>) -> io::Result<()> {
    match answer {
        Ok(count) => println!(rt; "reads {count}"),
        Err(refusal) => println!(rt; "refused {}", refusal.number()),
    }
}

// Makes the changes of a call and prints its line.
fn answer_call(rt: &Streams, bytes: &mut [u8], call: &[u8]) -> io::Result<()> {
    change_bytes(rt, bytes, byte_at(call, 36))?;
    print_call(rt, call)?;
    print_answer(rt, replayed(bytes, call))
}

fn main() {
    let mut space = [0u8; BYTES];
    let _ = run_cases::<_, 37, _>(&Streams, &mut space, |bytes, call| {
        answer_call(&Streams, bytes, call)
    });
}
