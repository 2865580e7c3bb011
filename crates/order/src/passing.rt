// What two images have in common is passed, station by station and move by move. The walk of each image knows for each
// page the offset up to which it was passed, or behind the station that comes next.

ghost use Rattle.std.specs.Prelude.{◌≡◌, ◌≤◌, get_or};
ghost use Rattle.image.specs.Image.{station_count, page_bytes};
ghost use Rattle.order.specs.Passing.{PassedMoves, PassedStation};
ghost use Rattle.order.specs.Passing.{Walking, PassedStations};

use by_station::{Walk, next_move};
use commands::{STATION, length_of};
use image::{directory_of, page_of};

// Passes the moves that two pages have in common, each from an offset on, which moves with them. Says whether both have
// no more. A loop and no `for`: each move tells where the next one begins, and the first that differs ends it.
fn pass_moves(first: &[u8], at: &mut usize, second: &[u8], with: &mut usize) -> bool
    ensures passed { PassedMoves first.now at.old second.now with.old at.new with.new result }
{
    'moves: loop {
        match (next_move(first, *at), next_move(second, *with)) {
            (Some((m, behind)), Some((n, also_behind))) if m == n => {
                *at = behind;
                *with = also_behind;
            }
            (None, None) => return true,
            _ => return false,
        }
    }
}

// Passes the moves of a station, which stands on page p of one image and on page q of the other. Where both have no
// more, the pages are read on behind the station that comes next. Says whether that is so.
fn pass_station(first: &mut Walk, p: u8, second: &mut Walk, q: u8) -> bool
    requires near { (get_or first.old.offsets p 0 ≤ 256) × (get_or second.old.offsets q 0 ≤ 256) }
    ensures images { (first.new.image ≡ first.old.image) × (second.new.image ≡ second.old.image) }
    ensures passed { PassedStation (page_bytes first.old.image.now p) p (page_bytes second.old.image.now q) q
        first.old.offsets second.old.offsets result first.new.offsets second.new.offsets }
{
    let at = &mut first.offsets[p as usize];
    let with = &mut second.offsets[q as usize];
    let over = pass_moves(page_of(first.image, p), at, page_of(second.image, q), with);
    if over {
        *at += length_of(STATION);
        *with += length_of(STATION);
    }
    over
}

// Passes the stations and moves that two walks of as many stations have in common, and gives the station at which they
// part, or the number of stations.
pub fn pass_stations(first: &mut Walk, second: &mut Walk) -> usize
    requires stations { station_count first.old.image.now ≡ station_count second.old.image.now }
    requires begin { Walking first.old.image.now second.old.image.now first.old.offsets second.old.offsets 0 }
    ensures images { (first.new.image ≡ first.old.image) × (second.new.image ≡ second.old.image) }
    ensures passed { PassedStations first.old.image.now second.old.image.now
        first.new.offsets second.new.offsets result }
{
    let directory = directory_of(first.image);
    let pages = directory.iter().zip(directory_of(second.image));
    for (u, (&p, &q)) in pages.enumerate() {
        if !pass_station(first, p, second, q) {
            return u;
        }
    }
    directory.len()
}
