// The store's replay (02, C-20): how many pages a store of some frames reads for a recorded page list, where at a miss
// the least recently used far page leaves (paging/specs/Store.antt).

#![tactic(auto)]

ghost use Rattle.std.specs.Prelude.{◌≡◌, [], ◌≤◌, ◌<◌, length};
ghost use Rattle.paging.specs.Store.{reads_from};
ghost use Rattle.paging.specs.Promises.{ReplayPromised};
ghost use Rattle.image.specs.Image.{first_not_below};
ghost use Rattle.store.specs.Answers.{number_of, replay_in};
ghost use Rattle.store.specs.Ring.{Table, is_fit};

mod plant;
mod references;
mod ring;

use image::{first_not_below, outside};
use plant::Plant;
use references::replay_list;

// The most frames of a store.
const FRAMES: usize = 64;

// Why a replay is refused.
#[derive(Clone, Copy, Debug, PartialEq, Eq)]
pub enum ReplayRefusal {
    // There are no pages, or more than a map has.
    PageCount,
    // The frames, the list or the table of distances do not fit the pages.
    Unfit,
}

impl ReplayRefusal {
    // The refusal's number in document 01.
    pub fn number(self) -> u8
        ensures value { result ≡ number_of self }
    {
        match self {
            ReplayRefusal::PageCount => 3,
            ReplayRefusal::Unfit => 23,
        }
    }
}

// Whether every entry of the list is a page, and the table of distances is as long as it has to be.
fn fits(list: &[u8], pages: usize, distances: &[u32]) -> bool
    requires few { pages ≤ 240 }
    ensures value { result ≡ is_fit list.now pages distances.now }
{
    list.len() <= first_not_below(list, pages) && distances.len() == pages * pages
}

// The reads of a store that holds nothing at first.
fn count_reads(list: &[u8], pages: usize, frames: usize, distances: &[u32], threshold: u32) -> usize
    requires table { Table pages distances.now }
    requires entries { length list.now ≤ first_not_below pages list.now }
    requires some { 0 < frames }
    ensures value { result ≡ reads_from pages distances.now threshold frames [] list.now }
{
    let plant = Plant {
        pages,
        distances,
        threshold,
        frames,
    };
    replay_list(list, &plant)
}

// Replays a list of pages in a store of some frames, with a table of the distances between pages, row by row, and a
// threshold: the number of reads. It refuses by 3 and 23. What C lends is five parameters; behind the refusals they are
// one `Plant`.
#[tactic(auto, using(crate::proofs::Fit::answered_3, crate::proofs::Fit::answered_23, crate::proofs::Fit::answered_23_too))]
pub fn replay(
    list: &[u8],
    pages: usize,
    frames: usize,
    distances: &[u32],
    threshold: u32,
) -> Result<usize, ReplayRefusal>
    ensures promised { ReplayPromised list.now pages frames distances.now threshold (replay_in result) }
{
    if outside(pages, 240) {
        return Err(ReplayRefusal::PageCount);
    }
    if outside(frames, FRAMES) || !fits(list, pages, distances) {
        return Err(ReplayRefusal::Unfit);
    }
    Ok(count_reads(list, pages, frames, distances, threshold))
}
