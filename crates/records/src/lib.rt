// Records to image and image to records (02, C-16), over a lent list of move records. The work is done on records of
// its own (crates listing and writing); here the lent list is passed once, record by record.

#![tactic(auto)]

ghost use Rattle.std.specs.Prelude.{◌≡◌, ◌++◌, ◌≤◌, length, drop};
ghost use Rattle.roundtrip.specs.Records.{listing};
ghost use Rattle.roundtrip.specs.Written.{writing};
ghost use Rattle.roundtrip.specs.Promises.{ReadPromised, WritePromised};
ghost use Rattle.listing.specs.Found.{outcome_in, count_in};
ghost use Rattle.writing.specs.Answers.{outcome_of_write};
ghost use Rattle.writing.specs.Taking.{Fits, taken};

use image::Refusal;
use listing::keep_records;
use move_record::{MoveRecord, NO_RECORD, RECORDS, put_record, record_at};
use writing::taking::Memory;
use writing::{WriteRefusal, finish};

// Puts records at the front of a list, each by put_record, which alone writes a lent list.
#[tactic(auto, using(crate::proofs::Steps::fill_next))]
fn fill(list: &mut [MoveRecord], records: &[MoveRecord])
    requires room { length records.now ≤ length list.old }
    ensures filled { list.new ≡ records.now ++ drop (length records.now) list.old }
{
    for (i, &r) in records.iter().enumerate() {
        put_record(list, i, r);
    }
}

// Takes the records of a list one by one.
#[tactic(auto, using(crate::proofs::Steps::taken_next), unfolding(writing::specs::Taking::taken))]
fn take_all(records: &[MoveRecord], size: u16, memory: &mut Memory)
    ensures taken { memory.new ≡ taken size memory.old 0 records.now }
    ensures fits { Fits memory.old.records → Fits memory.new.records }
{
    // An index loop: record_at alone reads a lent list.
    for i in 0..records.len() {
        memory.take(i, size, record_at(records, i));
    }
}

// Reads an image into records: the whole check, then 7 if the list is too short; then the records, by (from, target)
// rising, stand at the list's front, and their count is the answer.
pub fn read(image: &[u8], list: &mut [MoveRecord]) -> Result<usize, Refusal>
    ensures promised { ReadPromised image.now list.old
        (listing (outcome_in result) (count_in result) list.new) }
{
    let mut kept = [NO_RECORD; RECORDS];
    let count = keep_records(image, list.len(), &mut kept)?;
    fill(list, &kept[..count]);
    Ok(count)
}

// Writes the image of records into a buffer, for a number of stations and of pages and a directory.
pub fn write(
    records: &[MoveRecord],
    size: u16,
    pages: u16,
    directory: &[u8],
    image: &mut [u8],
) -> Result<(), WriteRefusal>
    ensures promised { WritePromised size pages directory.now records.now image.old
        (writing (outcome_of_write result) image.new) }
{
    let mut memory = Memory::new();
    take_all(records, size, &mut memory);
    finish(&memory, records.len(), size, pages, directory, image)
}
