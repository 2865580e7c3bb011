// Runs what cases_io reads and prints on handles that are lent, where the other test programs run it on `Streams`: on
// the handle of `main`, and on those of handles.rt.
//
// The input is a label of 5 bytes, an image of 4 bytes and two changes of it; an image of 3 bytes, which is lent 2, and
// a label, its last byte; then maps, as cases_io reads them. A call is the number of its changes (u8), a mark that is
// printed (u8), and the changes. tests/make_handles_cases.py writes the input, and the text that this program must
// print.

#![tactic(auto)]

mod handles;

use cases_io::{BYTES, change_bytes, copy_label, read_image, run_cases};
use handles::{Failing, Marked};
use image::bytes::byte_at;
use std::io;
use std::io::{Error, ErrorKind};

// A map with a label of 1 byte, 2 calls and an image of 3 bytes: its head is cut short, and the rest of it is zeros. Of
// what a handle reads again for each buffer, the label is 1, the image 1 2 0, and a call 1 2.
const MAP: [u8; 4] = [1, 2, 0, 3];

// The same with an image of 9 bytes, which is cut off.
const CUT: [u8; 4] = [1, 2, 0, 9];

fn print_image<R: Print>(rt: &R, image: &[u8], mark: u8) -> io::Result<()> {
    print!(rt; "image {mark}:")?;
    for byte in image.iter() {
        print!(rt; " {byte}")?;
    }
    println!(rt; "")
}

// Makes the changes of a call and prints the image.
fn answer_call<R: Input + Print>(rt: &R, image: &mut [u8], call: &[u8]) -> io::Result<()> {
    change_bytes(rt, image, byte_at(call, 0))?;
    print_image(rt, image, byte_at(call, 1))
}

// A label of this length and an image, and a call that has the image.
fn run_parts<R: Input + Print>(rt: &R, space: &mut [u8], label: u8) -> io::Result<()> {
    copy_label(rt, label)?;
    match read_image(rt, space, 4)? {
        Some(image) => answer_call(rt, image, &[2, 0]),
        None => Ok(()),
    }
}

// An image that is longer than the space: what is behind the space is left to be read.
fn run_long<R: Input + Print>(rt: &R) -> io::Result<()> {
    let read = read_image(rt, &mut [0; 2], 3)?.is_some();
    println!(rt; "read: {read}")?;
    copy_label(rt, 1)
}

fn run_maps<R: Input + Print>(rt: &R, space: &mut [u8]) -> io::Result<()> {
    run_cases::<_, 2, _>(rt, space, |image, call| answer_call(rt, image, call))
}

// The first call of the maps, whose answer then fails.
fn run_first<R: Input + Print>(rt: &R, space: &mut [u8]) -> io::Result<()> {
    run_cases::<_, 2, _>(rt, space, |image, call| {
        answer_call(rt, image, call)?;
        Err(Error::from(ErrorKind::Other))
    })
}

// What is read where the input has ended is zeros, an image is cut off, and there is no map.
fn run_ended<R: Print>(rt: &R, space: &mut [u8]) -> io::Result<()> {
    let ended = Marked { rt, input: b"" };
    run_parts(&ended, space, 2)?;
    answer_call(&ended, &mut [7, 7], &[1, 0])?;
    run_maps(&ended, space)
}

// Whether the calls hand on that an answer fails, and a print: of the map that is cut off, each of the three and none.
fn print_errors<R: Print>(rt: &R, space: &mut [u8]) -> io::Result<()> {
    let answer = run_first(&Marked { rt, input: &MAP }, space).is_err();
    println!(rt; "answer told: {answer}")?;
    for before in 0..=3 {
        let failing = Failing::after(before);
        let lent = Marked {
            rt: &failing,
            input: &CUT,
        };
        println!(rt; "told after {before}: {}", run_maps(&lent, space).is_err())?;
    }
    let failing = Failing::after(0);
    let lent = Marked {
        rt: &failing,
        input: &CUT,
    };
    println!(rt; "change told: {}", change_bytes(&lent, space, 2).is_err())
}

fn main(rt: HostRuntime) -> io::Result<()> {
    let mut space = [0u8; BYTES];
    run_parts(&rt, &mut space, 5)?;
    run_long(&rt)?;
    run_ended(&rt, &mut space)?;
    print_errors(&rt, &mut space)?;
    run_maps(&rt, &mut space)
}
