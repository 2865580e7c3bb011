// What the test programs read alike, from the handle that they lend: numbers little-endian, labels, images. What
// search_test, panel_test, records_test, order_test, store_test and handles_test read is a row of maps (in the third to
// the fifth, of lists and tables). A map is the label's length (u8), the number of its calls (u16), the image's length
// (u32), the label, the image, and the calls. A call is each program's own; at its end are its changes, each an offset
// (u32) and the byte that the image has there from this call on. Labels and changes are printed as they are read. And
// what such programs print alike: a refusal with its place.

#![tactic(auto)]

ghost use Rattle.std.specs.Prelude.{◌≡◌, ◌<◌, ◌≤◌, length, slice_set};
ghost use Rattle.image.specs.Bytes.{part};

use image::bytes::part_of;
use image::{BadPage, Refusal};
use output::Output;
use std::fmt::{Display, Formatter};
use std::{fmt, io};

mod descriptors;
mod output;

// The longest image of a case.
pub const BYTES: usize = 70000;

// A map: its image, at the front of the space, and how many calls come next.
#[derive(Drop)]
struct Map<'a> {
    image: &'a mut [u8],
    calls: u16,
}

// A part of a case's bytes, by its offset and its length.
#[derive(Clone, Copy)]
pub struct Part {
    pub from: u32,
    pub count: u32,
}

impl Part {
    // The part that a call names at an offset, by two u32.
    pub fn named(call: &[u8], at: u8) -> Part {
        let at = usize::from(at);
        Part {
            from: u32::from_le_bytes(bytes_at(call, at)),
            count: u32::from_le_bytes(bytes_at(call, at + 4)),
        }
    }

    // It, as far as the bytes reach.
    pub fn of(self, bytes: &[u8]) -> &[u8]
        ensures part { result.now ≡ part bytes.now self.from self.count }
    {
        part_of(bytes, self.from as usize, self.count as usize)
    }
}

// A refusal as text: its number, and the place that it names.
#[derive(Clone, Copy)]
pub struct Told(pub Refusal);

impl fmt::Display for Told {
    fn fmt<W: fmt::Write>(&self, f: &mut fmt::Formatter<W>) -> fmt::Result {
        write!(f, "refused {}", self.0.number())?;
        match self.0 {
            Refusal::Directory { station } => write!(f, ", station {station}"),
            Refusal::BadPage(BadPage { page, offset, .. }) => {
                write!(f, ", page {page}, offset {offset}")
            }
            _ => Ok(()),
        }
    }
}

// So many bytes at an offset; past the end zeros.
pub fn bytes_at<const N: usize>(s: &[u8], at: usize) -> [u8; N] {
    let mut bytes = [0u8; N];
    for (byte, value) in bytes.iter_mut().zip(s.iter().skip(at)) {
        *byte = *value;
    }
    bytes
}

// Standard input and output of a test program. A read that fails is the input's end, and what can't be written is
// dropped silently, so that a program goes on as if it were written. No handle of `main` does so.
#[derive(Clone, Copy)]
pub struct Streams;

impl Streams {
    // Reads until the buffer is full or the input ends, and says how many bytes were read.
    pub fn read(&self, buffer: &mut [u8]) -> usize
        ensures within { result ≤ length buffer.new }
    {
        descriptors::read(buffer)
    }

    // Reads so many bytes. Past the input's end they are zeros.
    pub fn read_array<const N: usize>(&self) -> [u8; N]
        requires size { N < 9223372036854775808 }
    {
        read_array(self)
    }
}

impl Print for Streams {
    fn print<D: Display + Drop>(&self, value: D) -> io::Result<()> {
        let mut text = Formatter::new(Output::new());
        let _ = text.write(value);
        text.into_inner().flush();
        Ok(())
    }

    fn println<D: Display + Drop>(&self, value: D) -> io::Result<()> {
        let mut text = Formatter::new(Output::new());
        let _ = text.writeln(value);
        text.into_inner().flush();
        Ok(())
    }

    fn write_all(&self, bytes: &[u8]) -> io::Result<()> {
        descriptors::write(bytes);
        Ok(())
    }
}

// What cases are read from: `Streams`, or any handle that is an `Input`, which the crate `streams` reads.
pub trait ReadFull {
    // Reads until the buffer is full or the input ends, and says how many bytes were read.
    fn read_full(&self, buffer: &mut [u8]) -> usize
        ensures within { result ≤ length buffer.new };
}

impl<R: Input> ReadFull for R {
    fn read_full(&self, buffer: &mut [u8]) -> usize {
        streams::read_full(&mut self.reader(), buffer).size
    }
}

impl ReadFull for Streams {
    fn read_full(&self, buffer: &mut [u8]) -> usize {
        self.read(buffer)
    }
}

// Reads so many bytes. Past the input's end they are zeros.
fn read_array<R: ReadFull, const N: usize>(rt: &R) -> [u8; N]
    requires size { N < 9223372036854775808 }
{
    let mut bytes = [0u8; N];
    rt.read_full(&mut bytes);
    bytes
}

// Sets a byte of an image, if it is there.
pub fn put(image: &mut [u8], at: usize, value: u8)
    ensures inside { at < length image.old → image.new ≡ slice_set image.old at value }
    ensures outside { length image.old ≤ at → image.new ≡ image.old }
{
    if at < image.len() {
        image[at] = value;
    }
}

// Reads so many changes and makes them.
pub fn change_bytes<R: ReadFull + Print>(rt: &R, image: &mut [u8], changes: u8) -> io::Result<()> {
    for _ in 0..changes {
        let change: [u8; 5] = read_array(rt);
        let at = u32::from_le_bytes(bytes_at(&change, 0));
        let value = change[4];
        println!(rt; "  byte {at} becomes {value}")?;
        put(image, at as usize, value);
    }
    Ok(())
}

// Copies a label of this length to a line of its own.
pub fn copy_label<R: ReadFull + Print>(rt: &R, size: u8) -> io::Result<()> {
    let mut label = [0u8; 255];
    let label = &mut label[..usize::from(size)];
    rt.read_full(label);
    rt.write_all(label)?;
    println!(rt; "")
}

// Says that the input is not a row of whole maps.
pub fn cut_off<T, R: Print>(rt: &R) -> io::Result<Option<T>> {
    println!(rt; "cut off")?;
    Ok(None)
}

// Reads an image of this size into the front of the space, if that is large enough.
pub fn read_image<'a, R: ReadFull + Print>(
    rt: &R,
    space: &'a mut [u8],
    size: u32,
) -> io::Result<Option<&'a mut [u8]>> {
    let size = size as usize;
    let n = size.min(space.len());
    let image = &mut space[..n];
    if rt.read_full(image) < size {
        return cut_off(rt);
    }
    Ok(Some(image))
}

// Reads the next map up to its calls, and prints its label. A map with no calls ends the input too.
fn read_map<'a, R: ReadFull + Print>(rt: &R, space: &'a mut [u8]) -> io::Result<Option<Map<'a>>> {
    let mut head = [0u8; 7];
    if rt.read_full(&mut head) == 0 {
        return Ok(None);
    }
    copy_label(rt, head[0])?;
    let calls = u16::from_le_bytes(bytes_at(&head, 1));
    match read_image(rt, space, u32::from_le_bytes(bytes_at(&head, 3)))? {
        Some(image) if calls > 0 => Ok(Some(Map { image, calls })),
        _ => Ok(None),
    }
}

// Reads the maps and their calls, of N bytes each, and answers each call with its map's image.
pub fn run_cases<R: ReadFull + Print, const N: usize, F: Fn(&mut [u8], &[u8]) -> io::Result<()>>(
    rt: &R,
    space: &mut [u8],
    answer_call: F,
) -> io::Result<()>
    requires size { N < 9223372036854775808 }
    requires callable { F.IsAlwaysCallable answer_call }
{
    for _ in 0..u64::MAX {
        let Some(map) = read_map(rt, space)? else {
            break;
        };
        for _ in 0..map.calls {
            let call: [u8; N] = read_array(rt);
            answer_call(map.image, &call)?;
        }
    }
    Ok(())
}
