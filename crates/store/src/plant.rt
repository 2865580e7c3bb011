// The plant store that a list is replayed in.

ghost use Rattle.std.specs.Prelude.{◌≡◌, ◌<◌};
ghost use Rattle.paging.specs.Store.{is_far};
ghost use Rattle.store.specs.Ring.{Table};

// How many pages there are and how far from each other, row by row, from which distance on a page is far, and how many
// pages the store holds.
#[derive(Clone, Copy)]
pub struct Plant<'a> {
    pub pages: usize,
    pub distances: &'a [u32],
    pub threshold: u32,
    pub frames: usize,
    ghost table: { Table pages distances.now },
    ghost some: { 0 < frames },
}

impl Plant<'_> {
    // Whether a page is farther than the threshold from the page last referred to.
    pub fn is_far(&self, last: u8, p: u8) -> bool
        requires row { last < self.now.pages }
        requires column { p < self.now.pages }
        ensures value { result ≡ is_far self.now.pages self.now.distances.now self.now.threshold last p }
    {
        self.threshold < self.distances[(last as usize) * self.pages + (p as usize)]
    }
}
