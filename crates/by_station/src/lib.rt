// The moves of a wholly good image, station by station. A page's stations rise, so that each page is read once from
// front to end: for each one it is known how far it was read.

#![tactic(auto)]

ghost use Rattle.std.specs.Prelude.{◌≡◌, List};
ghost use Rattle.image.specs.Image.{accepted};
ghost use Rattle.whole.specs.Check.{whole_check};
ghost use Rattle.move_record.specs.declared.MoveRecord.{MoveRecord};
ghost use Rattle.roundtrip.specs.Records.{record_for, records_of};
ghost use Rattle.by_station.specs.Next.{next_move};
ghost use Rattle.by_station.specs.Standing.{Standing, Stepped};

use commands::{Command, LIMITED, MOVE, Move, STATION, command_at, length_of};
use image::{directory_of, page_of};
use layout::places::PAGES;
use move_record::MoveRecord;

// The move that stands at an offset of a page, of the station before it, with the offset behind it; none where another
// command stands there.
pub fn next_move(page: &[u8], at: usize) -> Option<(Move, usize)>
    ensures value { result ≡ next_move page.now at }
{
    match command_at(page, at) {
        Ok(Command::MoveTo(m)) => Some((m, at + length_of(MOVE))),
        Ok(Command::Limited(m)) => Some((m, at + length_of(LIMITED))),
        Ok(Command::Station(_) | Command::End) | Err(_) => None,
    }
}

// A move of station u as a record.
pub fn record_for(u: u16, m: Move) -> MoveRecord
    ensures value { result ≡ record_for u m }
{
    MoveRecord {
        from: u,
        target: m.target,
        time: m.time,
        limit: m.limit,
    }
}

// A walk of a wholly good image's records. For each page the offset behind its latest move is known or, where its next
// station has not been come to, behind that station.
#[derive(Drop)]
pub struct Walk<'a> {
    pub image: &'a [u8],
    pub offsets: [usize; PAGES],
    ghost whole: { whole_check image.now ≡ accepted },
}

impl<'a> Walk<'a> {
    // A walk that stands at the first station: all records are left.
    pub fn new(image: &'a [u8]) -> Walk<'a>
        requires whole { whole_check image.now ≡ accepted }
        ensures image { result.image ≡ image.entry }
        ensures begin { Standing image.now 0 result.offsets (records_of image.now) }
    {
        Walk {
            image,
            offsets: [length_of(STATION); PAGES],
        }
    }

    // The next record, from the station on at which the walk stands, if there are more.
    pub fn next_record(&mut self, from: usize) -> Option<MoveRecord>
        requires standing { (left : List MoveRecord) × Standing self.old.image.now from self.old.offsets left }
        ensures image { self.new.image ≡ self.old.image }
        ensures next { (left : List MoveRecord)
            → Standing self.old.image.now from self.old.offsets left
            → Stepped self.old.image.now left result self.new.offsets }
    {
        let offsets = &mut self.offsets;
        let directory = directory_of(self.image);
        for u in from..directory.len() {
            let p = directory[u];
            let at = offsets[p as usize];
            match next_move(page_of(self.image, p), at) {
                Some((m, behind)) => {
                    offsets[p as usize] = behind;
                    return Some(record_for(u as u16, m));
                }
                None => offsets[p as usize] = at + length_of(STATION),
            }
        }
        None
    }
}
