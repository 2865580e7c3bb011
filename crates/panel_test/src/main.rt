// Asks the panel's call for stations of maps from standard input and prints every float that it answers.
// tests/make_panel_cases.py writes the cases and, by rules of its own, the text that this program must print.
//
// The input is a row of maps, as the crate cases_io reads them. A call is the source, the strip's length, the first
// station and the number of stations (four u16), the number of changes (u8), and the changes. It asks for one station
// after the other and prints one line, ` from 0, strip 8120, stations 0 to 8: 0 4 3 6 2 8 9 -106*2, digest 3848850866`.
// The digest is of the bits of every float, so that another one shows even where it is printed alike.

#![tactic(auto)]

use cases_io::{BYTES, Streams, change_bytes, run_cases};
use image::bytes::{byte_at, word_at};
use std::num::f64_to_bits_with_nan;
use std::{fmt, io};
use tables_io::mixed;
use yard::yard_panel;

// So many equal floats in turn, as text ` 4` or ` -106*2`.
#[derive(Clone, Copy)]
struct Run {
    float: f64,
    count: u32,
}

impl fmt::Display for Run {
    fn fmt<W: fmt::Write>(&self, f: &mut fmt::Formatter<W>) -> fmt::Result {
        match self.count {
            0 => Ok(()),
            1 => write!(f, " {}", self.float),
            count => write!(f, " {}*{count}", self.float),
        }
    }
}

// The digest with the bits of a float.
fn with_float(digest: u64, float: f64) -> u64 {
    let bits = f64_to_bits_with_nan(float);
    mixed(
        mixed(digest, (bits / 0x1_0000_0000) as u32),
        (bits % 0x1_0000_0000) as u32,
    )
}

// Asks for the stations of a call in turn and prints its line.
fn print_line<R: Print>(rt: &R, image: &[u8], call: &[u8]) -> io::Result<()> {
    let source = word_at(call, 0);
    let strip = word_at(call, 2);
    let first = word_at(call, 4);
    let number = word_at(call, 6);
    let last = (u64::from(first) + u64::from(number)).wrapping_sub(1);
    print!(rt; " from {source}, strip {strip}, stations {first} to {last}:")?;
    let mut digest = 0;
    let mut run = Run {
        float: 0.0,
        count: 0,
    };
    for i in 0..number {
        let float = yard_panel(image, source, strip, first.wrapping_add(i));
        digest = with_float(digest, float);
        if float != run.float {
            print!(rt; "{run}")?;
            run = Run { float, count: 0 };
        }
        run.count = run.count.wrapping_add(1);
    }
    println!(rt; "{run}, digest {digest}")
}

// Makes the changes of a call and prints its line.
fn answer_call(rt: &Streams, image: &mut [u8], call: &[u8]) -> io::Result<()> {
    change_bytes(rt, image, byte_at(call, 8))?;
    print_line(rt, image, call)
}

fn main() {
    let mut space = [0u8; BYTES];
    let _ = run_cases::<_, 9, _>(&Streams, &mut space, |image, call| {
        answer_call(&Streams, image, call)
    });
}
