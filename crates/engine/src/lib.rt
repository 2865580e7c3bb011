// The engine: both searches as a run of references. While a station waits, the page of the first that does is listed,
// fetched, and worked on (net/specs/Run.antt). It works on memory that it is lent: cells, in which each station has its
// cost and predecessor; the keys by which stations wait; the queue of pages. The moves of a page are rows that the page
// reader has laid out.

#![tactic(auto)]

ghost use Rattle.std.specs.Prelude.{◌≡◌, ◌≤◌, ◌<◌, length, replicate};
ghost use Rattle.common.specs.Numbers.{nobody};
ghost use Rattle.image.specs.Image.{directory_of, heading_check, accepted};
ghost use Rattle.reference.specs.Standing.{Underway};
ghost use Rattle.engine.specs.Ending.{EndedOn};

use cells::Memory;
use common::NOBODY;
use image::{BadPage, directory_of};
use layout::moves::LAYOUT;
use layout::places::{PLACES, STATIONS, place};
use queue::QUEUE;
use reference::{Query, refer};

// How a search ended: the number of references made, and that nobody was left to wait, or the bad page.
#[derive(Clone, Copy, Debug, PartialEq, Eq)]
pub struct Ended {
    pub count: usize,
    pub outcome: Result<(), BadPage>,
}

// References until nobody waits, or a bad page ends the search. It ends, as no search makes more than there are
// stations: the count is no index, and a `for` over it would need an end that no search comes to.
fn run(
    query: Query,
    image: &[u8],
    places: &[u16],
    layout: &mut [u32; LAYOUT],
    memory: &mut Memory,
    list: &mut [u8],
) -> Ended
    requires begun { Underway query image.now 0 places.now layout.old memory.old list.old }
    ensures ended { EndedOn query image.now memory.new.cells list.old list.new result }
{
    let mut count: usize = 0;
    let outcome = loop {
        match refer(query, image, count, places, layout, memory, list) {
            Ok(None) => break Ok(()),
            Ok(Some(_)) => count += 1,
            Err(bad) => {
                count += 1;
                break Err(bad);
            }
        }
    };
    Ended { count, outcome }
}

// A whole search in memory that is lent: the cells, which are nobody's at first, hold its costs and predecessors
// afterwards, and the front of the list its page list. At the start nobody waits, and the source is offered cost 0 in the
// name of station 0, by which its cell is 0 and it waits; nobody else does.
pub fn search_in(query: Query, image: &[u8], memory: &mut Memory, list: &mut [u8]) -> Ended
    requires formed { heading_check image.now ≡ accepted }
    requires source { query.source < length (directory_of image.now) }
    requires cells { memory.old.cells ≡ replicate 2048 nobody }
    requires room { length (directory_of image.now) ≤ length list.old }
    ensures ended { EndedOn query image.now memory.new.cells list.old list.new result }
{
    let mut places = [0u16; PLACES];
    let mut layout = [0u32; LAYOUT];
    memory.waiting = [NOBODY; STATIONS];
    memory.queue = [NOBODY; QUEUE];
    place(directory_of(image), &mut places);
    let source = usize::from(query.source);
    memory.offer(&places, 0, source, 0);
    run(query, image, &places, &mut layout, memory, list)
}

// The same for a caller who lends the cells alone, whatever they hold. The calls have a whole memory, which spares them
// the copy: on a map of two stations it takes a quarter of the search.
pub fn search(query: Query, image: &[u8], cells: &mut [u64], list: &mut [u8]) -> Ended
    requires formed { heading_check image.now ≡ accepted }
    requires source { query.source < length (directory_of image.now) }
    requires cells { length cells.old ≡ 2048 }
    requires room { length (directory_of image.now) ≤ length list.old }
    ensures ended { EndedOn query image.now cells.new list.old list.new result }
{
    let mut memory = Memory::new();
    let ended = search_in(query, image, &mut memory, list);
    cells.copy_from_slice(memory.cells());
    ended
}
