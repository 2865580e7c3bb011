// The pages of an image, written station by station: each station goes behind what its page has so far. The records are
// by rising station, so that the moves of each station stand behind those of the station before it, and every record is
// looked at once.

ghost use Rattle.std.specs.Prelude.{◌≡◌, [], ◌∷◌, ◌+◌, ◌/◌, ◌%◌, ◌≤◌, length};
ghost use Rattle.common.specs.Window.{placed};
ghost use Rattle.page.specs.Good.{spell_move, spell_moves};
ghost use Rattle.roundtrip.specs.Written.{move_of, pages_for};
ghost use Rattle.imaging.specs.Runs.{run_of, station_bytes};
ghost use Rattle.imaging.specs.Put.{Put};
ghost use Rattle.imaging.specs.Fitting.{Fitting};

use crate::bytes::put_word;
use commands::{LIMITED, MOVE, STATION, length_of};
use layout::places::PAGES;
use move_record::MoveRecord;

// The bytes of a page.
pub const PAGE: usize = 256;

// A station that was written: how many records it has, and the offset behind its bytes.
#[derive(Clone, Copy)]
pub struct Behind {
    pub written: usize,
    pub at: usize,
}

// Puts what a command begins with: its code and a station. The code is a number, as `length_of` takes it. An offset
// stands beside the buffer in each function here that puts bytes, as in bytes.rt: the contract says what the whole
// buffer is then (`placed`, `Put`).
fn put_command(bytes: &mut [u8], at: usize, code: u8, station: u16)
    requires room { at + 3 ≤ length bytes.old }
    ensures put { bytes.new
        ≡ placed bytes.old at (code ∷ station % 256 ∷ station / 256 ∷ []) }
{
    bytes[at] = code;
    put_word(bytes, at + 1, station);
}

// Puts the move of a record, and answers the offset behind it.
#[tactic(auto, using(crate::proofs::Spelling::put_plain, crate::proofs::Spelling::put_limited))]
fn put_move(bytes: &mut [u8], at: usize, given: MoveRecord) -> usize
    requires room { at + length (spell_move (move_of given) []) ≤ length bytes.old }
    ensures put { Put bytes.old at (spell_move (move_of given) []) bytes.new result }
{
    if given.limit == 0 {
        put_command(bytes, at, MOVE, given.target);
        put_word(bytes, at + 3, given.time);
        return at + length_of(MOVE);
    }
    put_command(bytes, at, LIMITED, given.target);
    put_word(bytes, at + 3, given.time);
    put_word(bytes, at + 5, given.limit);
    at + length_of(LIMITED)
}

// Writes the moves of a station, whose records come first.
fn write_moves(records: &[MoveRecord], station: u16, bytes: &mut [u8], from: usize) -> Behind
    requires room { from + length (spell_moves (run_of records.now station) []) ≤ length bytes.old }
    ensures put { Put bytes.old from (spell_moves (run_of records.now station) []) bytes.new result.at }
    ensures written { result.written ≡ length (run_of records.now station) }
    ensures inside { result.written ≤ length records.now }
{
    let mut at = from;
    for (written, &given) in records.iter().enumerate() {
        if given.from != station {
            return Behind { written, at };
        }
        at = put_move(bytes, at, given);
    }
    Behind {
        written: records.len(),
        at,
    }
}

// Writes a station with its moves, whose records come first.
fn write_station(records: &[MoveRecord], station: u16, bytes: &mut [u8], from: usize) -> Behind
    requires room { from + length (station_bytes station (run_of records.now station)) ≤ length bytes.old }
    ensures put { Put bytes.old from
        (station_bytes station (run_of records.now station)) bytes.new result.at }
    ensures written { result.written ≡ length (run_of records.now station) }
    ensures inside { result.written ≤ length records.now }
{
    put_command(bytes, from, STATION, station);
    write_moves(records, station, bytes, from + length_of(STATION))
}

// Writes the pages of the records into a buffer that holds these and nothing else. It is known how many bytes each page
// has so far.
pub fn write_pages(records: &[MoveRecord], directory: &[u8], bytes: &mut [u8])
    requires fitting { Fitting directory.now records.now (length bytes.old) }
    ensures written { bytes.new
        ≡ pages_for directory.now records.now (length bytes.old / 256) 0 }
{
    let mut ends = [0usize; PAGES];
    bytes.fill(0);
    let mut left = records;
    for (u, &p) in directory.iter().enumerate() {
        let p = p as usize;
        let from = PAGE * p;
        let behind = write_station(left, u as u16, bytes, from + ends[p]);
        left = left.split_at(behind.written).1;
        ends[p] = behind.at - from;
    }
}
