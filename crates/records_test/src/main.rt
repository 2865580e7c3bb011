// Runs the reader and the writer of move records (02, C-16) over cases from standard input and prints the whole of what
// each call handed back: its answer, the records that were read, every byte of the buffer that was lent.
// tests/make_records_cases.py writes the cases and, by rules of its own, the text that this program must print.
//
// The input is a row of cases, as the crate cases_io reads maps: a label, the bytes of the case, and its calls. A call
// is six u16, its kind (u8), the number of its changes (u8), and the changes.
//
// Kind 1 reads the bytes as an image, for a list with room for so many records (the sixth u16). Where they are read,
// the records are then written with the image's N, P and directory, and the written image is read.
//
// Kind 2 writes an image: N, P, the directory's length, the offset of the first record, the number of records, and the
// buffer's length. The directory is at the front of the bytes; a record is from, target, time and limit, four u16.
// Where an image is written, it is then read.

#![tactic(auto)]

mod answers;
mod calls;
mod rounds;

use cases_io::{Streams, change_bytes, run_cases};
use image::bytes::{byte_at, word_at};
use rounds::{run_reader, run_writer};
use std::io;

// The kind of a call of the writer.
const WRITE: u8 = 2;

// The most bytes of a case: those of more records than a map can have.
const BYTES: usize = 110000;

fn print_reading<R: Print>(rt: &R, call: &[u8]) -> io::Result<()> {
    println!(rt; " read, room {}", word_at(call, 10))
}

fn print_writing<R: Print>(rt: &R, call: &[u8]) -> io::Result<()> {
    print!(rt; " write, N {}, P {}", word_at(call, 0), word_at(call, 2))?;
    print!(rt;
        ", directory {}, records {}",
        word_at(call, 4),
        word_at(call, 8)
    )?;
    println!(rt; ", buffer {}", word_at(call, 10))
}

// Prints a call, makes its changes and runs it.
fn answer_call(rt: &Streams, bytes: &mut [u8], call: &[u8]) -> io::Result<()> {
    let is_write = byte_at(call, 12) == WRITE;
    if is_write {
        print_writing(rt, call)?;
    } else {
        print_reading(rt, call)?;
    }
    change_bytes(rt, bytes, byte_at(call, 13))?;
    print!(rt; "  answer: ")?;
    if is_write {
        run_writer(rt, bytes, call)
    } else {
        run_reader(rt, bytes, call)
    }
}

fn main() {
    let mut space = [0u8; BYTES];
    let _ = run_cases::<_, 14, _>(&Streams, &mut space, |bytes, call| {
        answer_call(&Streams, bytes, call)
    });
}
