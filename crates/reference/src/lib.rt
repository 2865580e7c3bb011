// One reference of a search: the page of the station that is first of those that wait is listed, fetched and worked on.
// Between references the working memory stands for a state of the net's run (specs/Standing.antt).

#![tactic(auto)]

ghost use Rattle.std.specs.Prelude.{◌≡◌};
ghost use Rattle.image.specs.Image.{heading_check, accepted};
ghost use Rattle.net.specs.Run.{turn_limit};
ghost use Rattle.map.specs.Map.{map_frame};
ghost use Rattle.reference.specs.Standing.{Underway, Referred};

mod pages;

use cells::Memory;
use common::NOBODY;
use image::{BadPage, page_count, station_count};
use layout::moves::LAYOUT;
use layout::places::page_at;
use pages::fetch;
use queue::top;
use work::{station_of, work_page};

// What a search is asked: DF or plain, from where, and for a strip of which length, in decimetres. `df` is a flag, as the
// definitions of both searches have it: two names in its place would be turned into it in every contract.
#[derive(Clone, Copy)]
pub struct Query {
    pub df: bool,
    pub source: u16,
    pub strip: u16,
}

// The turns that a page in hand gets: one in the plain search, in the DF search more than it has stations.
fn turns_of(df: bool, image: &[u8]) -> usize
    requires formed { heading_check image.now ≡ accepted }
    ensures value { result ≡ turn_limit df (map_frame image.now) }
{
    let n = station_count(image);
    if df {
        return n + 1;
    }
    1
}

// One reference: the page of the station of least waiting key is listed, fetched and worked on, and handed back. None if
// nobody was waiting, and a page at fault ends the search. The list is lent by C, with the number of its entries so far
// beside it.
pub fn refer(
    query: Query,
    image: &[u8],
    count: usize,
    places: &[u16],
    layout: &mut [u32; LAYOUT],
    memory: &mut Memory,
    list: &mut [u8],
) -> Result<Option<u8>, BadPage>
    requires underway { Underway query image.now count places.now
        layout.old memory.old list.old }
    ensures referred { Referred query image.now count places.now
        layout.new memory.new list.old list.new result }
{
    let key = top(&memory.queue, page_count(image));
    if NOBODY <= key {
        return Ok(None);
    }
    let u = station_of(key);
    let p = page_at(places, u);
    let page = p as u8;
    list[count] = page;
    fetch(image, page, u, places, query.strip, layout).map_err(|first| first.on_page(page))?;
    let turns = turns_of(query.df, image);
    work_page(p, turns, key, places, layout, memory);
    Ok(Some(page))
}
