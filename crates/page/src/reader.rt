// The page reader: a page is good, or has a first command at fault; and while it is read, the moves of its stations
// that are open to a strip of a given length are laid out as rows.

ghost use Rattle.std.specs.Prelude.{◌≡◌, List, ◌≤◌, length};
ghost use Rattle.layout.specs.Places.{Placed};
ghost use Rattle.commands.specs.declared.Move.{Move};
ghost use Rattle.page.specs.Reading.{Leaving, good, read_page, verdict_in, verdict_of};
ghost use Rattle.page.specs.Laying.{PageLaid, OthersKept};

use super::BadCommand;
use commands::{Command, LIMITED, MOVE, STATION, length_of};
use layout::moves::{LAYOUT, PAGE_MOVES, ROOM_FROM};
use layout::places::first_slot;
use rows::{begin_row, lay_limited, lay_move, least_behind};
use rules::judged_at;

// Reads page p: good, or the first command at fault. Each station that is named begins a row, and its moves that are
// open to the strip are laid out there as they are read; the rows stand one behind the other in the page's own room. The
// stations are placed, so that the one that is due is known by its slot. The directory and its places are two parameters
// with a clause on both, and the page is a slice of at most 256 bytes, as judged_at takes them: docs/DECISIONS.md names
// what both functions ask.
pub fn read_page(
    directory: &[u8],
    places: &[u16],
    p: u8,
    page: &[u8],
    strip: u16,
    layout: &mut [u32; LAYOUT],
) -> Result<(), BadCommand>
    requires placed { Placed directory.now places.now }
    requires short { length page.now ≤ 256 }
    ensures verdict { verdict_in result ≡ verdict_of (read_page directory.now p page.now) }
    ensures laid { (moves : List Move) (stations : List Leaving)
        → read_page directory.now p page.now ≡ good moves stations
        → PageLaid directory.now p strip stations layout.new }
    ensures others { OthersKept directory.now p layout.old layout.new }
{
    let past = first_slot(places, p as usize + 1);
    let mut due = first_slot(places, p as usize);
    let mut at: usize = 0;
    let mut after: usize = 0;
    let mut least: usize = 0;
    let fault;
    let mut k = ROOM_FROM + PAGE_MOVES * (p as usize);
    // A loop whose break yields the fault's offset, left by label from the inner one: document 01 names this form.
    let offset = 'page: loop {
        let station = loop {
            match judged_at(directory, places, past, page, at, due, after, least) {
                Ok(Command::MoveTo(m)) => {
                    k = lay_move(layout, after - 1, k, m);
                    least = least_behind(m);
                    at += length_of(MOVE);
                }
                Ok(Command::Limited(m)) => {
                    k = lay_limited(layout, after - 1, k, strip, m);
                    least = least_behind(m);
                    at += length_of(LIMITED);
                }
                Ok(Command::Station(v)) => break v,
                Ok(Command::End) => return Ok(()),
                Err(found) => {
                    fault = found;
                    break 'page at;
                }
            }
        };
        begin_row(layout, station, k);
        due += 1;
        after = station + 1;
        least = 0;
        at += length_of(STATION);
    };
    Err(BadCommand { fault, offset })
}
