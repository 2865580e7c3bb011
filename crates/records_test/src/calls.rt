// The reader and the writer, and the text of what each handed back.

use crate::answers::{Listed, Written};
use move_record::{MoveRecord, RECORDS};
use records::{read, write};
use std::io;
use tables_io::Table;

// The numbers of as many records as a map can have.
const WORDS: usize = 48960;

// Prints the numbers of records, four a record.
fn print_records<R: Print>(rt: &R, records: &[MoveRecord]) -> io::Result<()> {
    let mut words = [0u16; WORDS];
    for (i, r) in records.iter().take(RECORDS).enumerate() {
        words[4 * i..4 * i + 4].copy_from_slice(&[r.from, r.target, r.time, r.limit]);
    }
    let length = 4 * records.len().min(RECORDS);
    println!(rt; "   records{}", Table(&words[..length]))
}

// Reads an image into a list, and gives the records that were read.
pub fn read_image<'a, R: Print>(
    rt: &R,
    image: &[u8],
    list: &'a mut [MoveRecord],
) -> io::Result<Option<&'a [MoveRecord]>> {
    let answer = read(image, list);
    println!(rt; "{}", Listed(answer))?;
    let Ok(count) = answer else {
        return Ok(None);
    };
    let records = &list[..count.min(list.len())];
    print_records(rt, records)?;
    Ok(Some(records))
}

// Writes the image of records into a buffer, and says whether it was written.
pub fn write_image<R: Print>(
    rt: &R,
    records: &[MoveRecord],
    size: u16,
    pages: u16,
    directory: &[u8],
    buffer: &mut [u8],
) -> io::Result<bool> {
    let answer = write(records, size, pages, directory, buffer);
    println!(rt; "{}", Written(answer))?;
    println!(rt; "   buffer{}", Table(buffer))?;
    Ok(answer.is_ok())
}
