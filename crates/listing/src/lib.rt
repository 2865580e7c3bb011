// The records of an image, kept in a list of the reader's own (02, C-16). No lent list of records is seen here.

#![tactic(auto)]

ghost use Rattle.std.specs.Prelude.{◌≡◌, [], ◌+◌, ◌≤◌, ◌<◌, length, get_or, take};
ghost use Rattle.image.specs.Image.{accepted, directory_of};
ghost use Rattle.whole.specs.Check.{whole_check};
ghost use Rattle.roundtrip.specs.Records.{records_at, records_of};
ghost use Rattle.listing.specs.Found.{Found};
ghost use Rattle.by_station.specs.Reached.{Reached};
ghost use Rattle.listing.specs.Stations.{StationKept};

use by_station::{next_move, record_for};
use commands::{STATION, length_of};
use image::{Refusal, directory_of, page_of};
use layout::places::PAGES;
use move_record::{MoveRecord, RECORDS};
use whole::check;

// How far the records are kept: the offset behind the moves that were passed, and the number of records.
#[derive(Clone, Copy)]
struct Passed {
    at: usize,
    count: usize,
}

// Keeps the records of station u, which stands on page p at an offset, behind those that are kept: its moves stand
// behind it, up to a command that is no move.
fn keep_station(
    image: &[u8],
    p: u8,
    u: u16,
    from: usize,
    first: usize,
    kept: &mut [MoveRecord],
) -> Passed
    requires own { get_or (directory_of image.now) u 0 ≡ p }
    requires named { u < length (directory_of image.now) }
    requires reached { Reached image.now p u from [] }
    requires memory { length kept.old ≡ 12240 }
    requires room { first + length (records_at image.now u) ≤ 12240 }
    ensures station { StationKept image.now p u first kept.old result.at result.count kept.new }
{
    let page = page_of(image, p);
    let mut at = from + length_of(STATION);
    let mut count = first;
    // A `while let` and no `for`: each move tells where the next one begins, and a command that is no move ends them.
    while let Some((m, behind)) = next_move(page, at) {
        kept[count] = record_for(u, m);
        count += 1;
        at = behind;
    }
    Passed { at, count }
}

// Keeps the records of a wholly good image by rising station, and gives their number. For each page it is known how far
// it was read.
fn keep_stations(image: &[u8], kept: &mut [MoveRecord]) -> usize
    requires whole { whole_check image.now ≡ accepted }
    requires memory { length kept.old ≡ 12240 }
    ensures count { result ≡ length (records_of image.now) }
    ensures records { take result kept.new ≡ records_of image.now }
{
    let mut offsets = [0usize; PAGES];
    let mut count: usize = 0;
    for (u, &p) in directory_of(image).iter().enumerate() {
        let passed = keep_station(image, p, u as u16, offsets[p as usize], count, kept);
        offsets[p as usize] = passed.at;
        count = passed.count;
    }
    count
}

// Keeps the records of an image, if it is wholly good and the list that they are for has room for them, and gives their
// number. It is refused by the whole check, or by 7.
pub fn keep_records(
    image: &[u8],
    room: usize,
    kept: &mut [MoveRecord; RECORDS],
) -> Result<usize, Refusal>
    ensures found { Found image.now room result kept.new }
{
    check(image)?;
    let count = keep_stations(image, kept);
    if room < count {
        return Err(Refusal::TableTooShort);
    }
    Ok(count)
}
