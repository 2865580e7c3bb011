// One record taken into the writer's memory (specs/Taking.antt).

ghost use Rattle.std.specs.Prelude.{◌≡◌, ◌≤◌, ◌<◌, take};
ghost use Rattle.roundtrip.specs.Written.{is_move, is_above};
ghost use Rattle.writing.specs.Taking.{Fits, empty, take_of, width_for, is_next, with_record};

use commands::{LIMITED, MOVE, length_of};
use layout::places::STATIONS;
use move_record::{MoveRecord, NO_RECORD, RECORDS};

// What is known of the records that were taken: as many of them as a map can have, the bytes that the moves of each
// station need, the latest record, and their number.
#[derive(Drop)]
pub struct Memory {
    pub records: [MoveRecord; RECORDS],
    pub bytes: [u16; STATIONS],
    pub latest: Option<MoveRecord>,
    pub count: usize,
}

// Whether a record is above another by (from, target).
fn is_above(before: MoveRecord, r: MoveRecord) -> bool
    ensures value { result ≡ is_above before r }
{
    (before.from, before.target) < (r.from, r.target)
}

// Whether a record by itself is a move between two of so many stations.
fn is_move(size: u16, r: MoveRecord) -> bool
    ensures value { result ≡ is_move size r }
{
    r.from < size && r.target < size && r.target != r.from
}

// The bytes of a record's command.
fn width_for(r: MoveRecord) -> u16
    ensures value { result ≡ width_for r }
{
    let code = if r.limit == 0 { MOVE } else { LIMITED };
    length_of(code) as u16
}

impl Memory {
    // Memory into which no record was taken.
    pub fn new() -> Memory
        ensures empty { result ≡ empty }
    {
        Memory {
            records: [NO_RECORD; RECORDS],
            bytes: [0; STATIONS],
            latest: None,
            count: 0,
        }
    }

    // Whether the record at index i is taken: all before it were, and it is no fault of 19.
    fn is_next(&self, i: usize, size: u16, r: MoveRecord) -> bool
        ensures value { result ≡ is_next size self.now i r }
    {
        if size as usize > STATIONS || self.count != i {
            return false;
        }
        is_move(size, r) && self.latest.is_none_or(|before| is_above(before, r))
    }

    // Keeps the record at index i, as far as a map can have so many: it is listed, measured and known as the latest.
    fn keep(&mut self, i: usize, r: MoveRecord)
        requires room { i < 18446744073709551615 }
        requires station { r.from < 2048 }
        ensures kept { self.new ≡ with_record self.old i r }
        ensures fits { (r.time < 65536) × (r.limit < 65536) }
    {
        let from = r.from as usize;
        self.bytes[from] = self.bytes[from].saturating_add(width_for(r));
        if i < RECORDS {
            self.records[i] = r;
        }
        self.latest = Some(r);
        self.count = i + 1;
    }

    // Takes the record at index i, if all before it were taken and it is no fault of 19. A list's index is below the
    // greatest number, so that one more is a number too.
    #[tactic(auto, unfolding(crate::specs::Taking::take_of))]
    pub fn take(&mut self, i: usize, size: u16, r: MoveRecord)
        requires room { i < 18446744073709551615 }
        ensures taken { self.new ≡ take_of size self.old i r }
        ensures fits { Fits self.old.records → Fits self.new.records }
    {
        if self.is_next(i, size, r) {
            self.keep(i, r);
        }
    }

    // The records that were taken, where a map can have so many.
    pub fn taken(&self) -> &[MoveRecord]
        requires few { self.now.count ≤ 12240 }
        ensures taken { result.now ≡ take self.now.count self.now.records }
    {
        &self.records[..self.count]
    }
}
