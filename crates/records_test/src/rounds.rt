// The calls of a case, and behind each one that is accepted the way back: what was read is written, what was written is
// read.

ghost use Rattle.std.specs.Prelude.{◌≤◌};

use crate::calls::{read_image, write_image};
use image::bytes::{part_of, word_at};
use image::directory_of;
use move_record::{MoveRecord, NO_RECORD, RECORDS};
use std::io;
use tables_io::LONGEST;

// What stands in a buffer before a call.
const BYTE_BEFORE: u8 = 187;

// The most records of a case.
const MOST: usize = 16384;

// Reads a written image for a list with room for its records and no more.
fn read_back<R: Print>(rt: &R, image: &[u8], records: usize) -> io::Result<()> {
    let mut list = [NO_RECORD; RECORDS];
    let list = &mut list[..records.min(RECORDS)];
    print!(rt; "  read back: ")?;
    read_image(rt, image, list)?;
    Ok(())
}

// Writes the image of records into a new buffer of this length, and reads what was written.
fn write_list<R: Print>(
    rt: &R,
    records: &[MoveRecord],
    size: u16,
    pages: u16,
    directory: &[u8],
    room: usize,
) -> io::Result<()> {
    let mut buffer = [BYTE_BEFORE; LONGEST];
    let image = &mut buffer[..room.min(LONGEST)];
    if write_image(rt, records, size, pages, directory, image)? {
        read_back(rt, image, records.len())?;
    }
    Ok(())
}

// Writes records with the N, P and directory of the image that they were read from.
fn write_back<R: Print>(rt: &R, image: &[u8], records: &[MoveRecord]) -> io::Result<()> {
    print!(rt; "  written back: ")?;
    let size = word_at(image, 0);
    let pages = word_at(image, 2);
    write_list(rt, records, size, pages, directory_of(image), image.len())
}

// Reads the bytes of a case as an image, and writes what was read.
pub fn run_reader<R: Print>(rt: &R, image: &[u8], call: &[u8]) -> io::Result<()> {
    let mut list = [NO_RECORD; RECORDS];
    let room = usize::from(word_at(call, 10));
    let list = &mut list[..room.min(RECORDS)];
    match read_image(rt, image, list)? {
        Some(records) => write_back(rt, image, records),
        None => Ok(()),
    }
}

// The record of a case at an offset.
fn record_in(bytes: &[u8], at: usize) -> MoveRecord
    requires room { at ≤ 1000000 }
{
    MoveRecord {
        from: word_at(bytes, at),
        target: word_at(bytes, at + 2),
        time: word_at(bytes, at + 4),
        limit: word_at(bytes, at + 6),
    }
}

// Writes the image of the records in a case.
pub fn run_writer<R: Print>(rt: &R, bytes: &[u8], call: &[u8]) -> io::Result<()> {
    let mut list = [NO_RECORD; MOST];
    let count = usize::from(word_at(call, 8)).min(MOST);
    let from = usize::from(word_at(call, 6));
    for (i, r) in list.iter_mut().take(count).enumerate() {
        *r = record_in(bytes, from + 8 * i);
    }
    let directory = part_of(bytes, 0, usize::from(word_at(call, 4)));
    let room = usize::from(word_at(call, 10));
    write_list(
        rt,
        &list[..count],
        word_at(call, 0),
        word_at(call, 2),
        directory,
        room,
    )
}
