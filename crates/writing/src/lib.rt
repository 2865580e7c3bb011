// The writer's work (02, C-16): a record taken into memory (taking.rt), the bytes that the pages need (pages.rt), and
// the image written of what was taken. No lent list of records is seen here.

#![tactic(auto)]

ghost use Rattle.std.specs.Prelude.{◌≡◌, List, ◌<◌, ◌≤◌, length, MatchResult, Some, None};
ghost use Rattle.image.specs.Image.{outcome_of};
ghost use Rattle.move_record.specs.declared.MoveRecord.{MoveRecord};
ghost use Rattle.roundtrip.specs.Written.{writing, shape_check};
ghost use Rattle.roundtrip.specs.Promises.{WritePromised};
ghost use Rattle.writing.specs.Answers.{outcome_of_write};
ghost use Rattle.writing.specs.Sums.{sums_of, first_over};
ghost use Rattle.writing.specs.Taking.{taken_all};
ghost use Rattle.writing.specs.Took.{Took};
ghost use Rattle.writing.specs.declared.WriteRefusal.TheVariants.{Shape};

pub mod pages;
pub mod taking;

use image::{Refusal, first_not_below, outside};
use imaging::write_image;
use pages::first_full;
use taking::Memory;

// What the writer refuses: 2 to 5; 19, with the index of the first record at fault; or 20, with the lowest page that
// needs more than 256 bytes.
#[derive(Clone, Copy, Debug, PartialEq, Eq)]
pub enum WriteRefusal {
    Shape(Refusal),
    Record(u32),
    Page(u8),
}

impl From<Refusal> for WriteRefusal {
    ghost from_gives = { λ refusal e. e ≡ Shape refusal };

    fn from(refusal: Refusal) -> WriteRefusal {
        WriteRefusal::Shape(refusal)
    }
}

// Refusals 2 to 5 of the writer, in this order; `room` is the buffer's length.
#[tactic(auto, using(common::proofs::Ground::tests), unfolding(roundtrip::specs::Written::shape_check))]
fn check_shape(size: usize, pages: usize, directory: &[u8], room: usize) -> Result<(), Refusal>
    requires counts { (size < 65536) × (pages < 65536) }
    ensures outcome { outcome_of result ≡ shape_check size pages directory.now room }
{
    if outside(size, 2048) {
        return Err(Refusal::StationCount);
    }
    if outside(pages, 240) {
        return Err(Refusal::PageCount);
    }
    if room != 4 + size + 256 * pages || directory.len() != size {
        return Err(Refusal::ImageLength);
    }
    let station = first_not_below(directory, pages);
    if station < size {
        return Err(Refusal::Directory {
            station: station as u16,
        });
    }
    Ok(())
}

// Refusal 20 of the writer: the lowest page that needs more than its bytes, if there is one.
fn check_pages(memory: &Memory, directory: &[u8], pages: u16) -> Result<(), u8>
    requires stations { length directory.now ≤ 2048 }
    requires pages { pages ≤ 256 }
    ensures full { MatchResult result
        (λ done. first_over (sums_of memory.now.bytes directory.now) pages ≡ None)
        (λ page. first_over (sums_of memory.now.bytes directory.now) pages ≡ Some page) }
{
    match first_full(&memory.bytes, directory, pages as usize) {
        Some(page) => Err(page as u8),
        None => Ok(()),
    }
}

// The image of the records that were taken, of which there were so many in all: 2 to 5, then 19 if not all were taken,
// then 20, and only then is the buffer written. `size`, `pages` and the directory come one by one from C and go one by
// one to the heading: a struct of them would be made to be taken apart.
pub fn finish(
    memory: &Memory,
    records: usize,
    size: u16,
    pages: u16,
    directory: &[u8],
    image: &mut [u8],
) -> Result<(), WriteRefusal>
    requires taken { Took memory.now records size }
    ensures promised { (list : List MoveRecord) → length list ≡ records
        → memory.now ≡ taken_all size list
        → WritePromised size pages directory.now list image.old
        (writing (outcome_of_write result) image.new) }
{
    check_shape(size as usize, pages as usize, directory, image.len())?;
    if memory.count < records {
        return Err(WriteRefusal::Record(memory.count as u32));
    }
    if let Err(page) = check_pages(memory, directory, pages) {
        return Err(WriteRefusal::Page(page));
    }
    write_image(memory.taken(), size, pages, directory, image);
    Ok(())
}
