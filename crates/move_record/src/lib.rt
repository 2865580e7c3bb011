// A lent list of move records (02, C-16): "The writer takes a lent list of move records (from, target, time, limit;
// limit 0 means `02`)". One function reads a record of such a list and one puts one there; all other code has records
// by value, or in lists of its own.

#![tactic(auto)]

ghost use Rattle.std.specs.Prelude.{◌≡◌, ◌<◌, length, get_or, set};
ghost use Rattle.move_record.specs.Records.{no_record};

// A move of the map: from and target are stations, the time is in tenths of a second, and the limit is the longest
// strip that the move takes, in decimetres, or 0 where it has none. In C it is four numbers of 16 bits in this order, by
// which records compare too (02, C-17).
#[repr(C)]
#[derive(Clone, Copy, Debug, PartialEq, Eq, PartialOrd, Ord)]
pub struct MoveRecord {
    pub from: u16,
    pub target: u16,
    pub time: u16,
    pub limit: u16,
}

// As many records as the pages of a map can have: each takes five bytes or more of a page's 255.
pub const RECORDS: usize = 12240;

// What a list of records has in it before records are put there.
pub const NO_RECORD: MoveRecord = MoveRecord {
    from: 0,
    target: 0,
    time: 0,
    limit: 0,
};

// The record at an index.
pub fn record_at(list: &[MoveRecord], i: usize) -> MoveRecord
    requires inside { i < length list.now }
    ensures value { result ≡ get_or list.now i no_record }
{
    list[i]
}

// Puts a record at an index; the others stay.
pub fn put_record(list: &mut [MoveRecord], i: usize, r: MoveRecord)
    requires inside { i < length list.old }
    ensures put { list.new ≡ set list.old i r }
{
    list[i] = r;
}
