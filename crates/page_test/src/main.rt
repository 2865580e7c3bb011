// Runs the page reader and the whole check over cases from standard input and prints their answers. A case is a kind
// byte, the label's length (one byte), the image's length (u32, little-endian), the label and the image;
// tests/make_page_cases.py writes the cases and, by a reader of its own, the text that this program must print.
//
// Kind 1 prints the whole check's answer and, where 1 to 5 accept the image, the page reader's answer for every page.
// Kind 2 then gives each byte of the image all 256 values in turn, and prints the whole check's answers, a line for
// each offset.

#![tactic(auto)]

ghost use Rattle.image.specs.Image.{directory_of};
ghost use Rattle.layout.specs.Places.{Placed};

use cases_io::{BYTES, Streams, bytes_at, copy_label, cut_off, put, read_image};
use image::bytes::byte_at;
use image::{check_heading, directory_of, page_count};
use layout::places::{PLACES, place};
use readings_io::{OfImage, OfPage, Reading, Runs};
use std::io;
use whole::check;

// As many pages as a byte can number, or values as it can have.
const NUMBERS: usize = 256;

// Prints the page reader's answers for the pages of an image that 1 to 5 accept.
fn print_readings<R: Print>(rt: &R, image: &[u8], places: &[u16]) -> io::Result<()>
    requires { Placed (directory_of image.now) places.now }
{
    let pages = page_count(image).min(NUMBERS);
    let mut readings = [Reading {
        at: 0,
        answer: OfPage(Ok(())),
    }; NUMBERS];
    for (p, reading) in (0..=255).zip(readings.iter_mut().take(pages)) {
        *reading = Reading {
            at: p,
            answer: readings_io::read(image, places, p),
        };
    }
    println!(rt; "  pages: {}", Runs(&readings[..pages]))
}

// The answers for one image: the whole check's, and the page reader's where there are pages to read.
fn print_answers<R: Print>(rt: &R, image: &[u8]) -> io::Result<()> {
    println!(rt; "  whole check: {}", OfImage(check(image)))?;
    let directory = directory_of(image);
    if check_heading(image).is_ok() && directory.len() <= 2048 {
        let mut places = [0u16; PLACES];
        place(directory, &mut places);
        print_readings(rt, image, &places)?;
    }
    Ok(())
}

// Gives the byte at an offset all 256 values, prints the whole check's answers, and sets the byte back.
fn sweep_byte<R: Print>(rt: &R, image: &mut [u8], at: usize) -> io::Result<()> {
    let kept = byte_at(image, at);
    let mut readings = [Reading {
        at: 0,
        answer: OfImage(Ok(())),
    }; NUMBERS];
    for (value, reading) in (0..=255).zip(readings.iter_mut()) {
        put(image, at, value);
        *reading = Reading {
            at: value,
            answer: OfImage(check(image)),
        };
    }
    put(image, at, kept);
    println!(rt; "  at {at}: {}", Runs(&readings))
}

// Reads one case and prints its answers, or says that there is none. Of an image that is longer than the space nothing is
// read.
fn run_case(rt: &Streams, space: &mut [u8]) -> io::Result<Option<()>> {
    let mut head = [0u8; 6];
    match rt.read(&mut head) {
        0 => return Ok(None),
        1..6 => return cut_off(rt),
        _ => {}
    }
    copy_label(rt, head[1])?;
    let size = u32::from_le_bytes(bytes_at(&head, 2));
    if space.len() < size as usize {
        return cut_off(rt);
    }
    let Some(image) = read_image(rt, space, size)? else {
        return Ok(None);
    };
    print_answers(rt, image)?;
    if head[0] == 2 {
        for at in 0..image.len() {
            sweep_byte(rt, image, at)?;
        }
    }
    Ok(Some(()))
}

// Runs the cases in turn.
fn run_cases(rt: &Streams, space: &mut [u8]) -> io::Result<()> {
    for _ in 0..u64::MAX {
        if run_case(rt, space)?.is_none() {
            break;
        }
    }
    Ok(())
}

fn main() {
    let mut space = [0u8; BYTES];
    let _ = run_cases(&Streams, &mut space);
}
