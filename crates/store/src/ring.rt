// The pages that a store holds, linked into a ring in the order of their last references. END stands between the two
// ends, before the latest page and behind the oldest. Pages are below 240.

ghost use Rattle.std.specs.Prelude.{◌≡◌, [], ◌≤◌, ℕ, not, eqb, get_or, set};
ghost use Rattle.store.specs.Ring.{Full, Leaves, Ring};

use super::plant::Plant;

// Room for every page that a byte can name.
const NAMED: usize = 256;

// What stands between the two ends: an entry of the ring as the pages are. A page that is not held has NONE for
// `newer`. These are bytes, and no Options, since each step of a walk would have to unwrap what the ring promises.
const END: u8 = 255;

const NONE: u8 = 254;

// `older` leads from a page to the one last referred to before it, `newer` back.
#[derive(Drop)]
pub struct Links {
    pub older: [u8; NAMED],
    pub newer: [u8; NAMED],
}

impl Links {
    // A ring without pages.
    pub fn new() -> Links
        ensures nothing { (pages : ℕ) → pages ≤ 240 → Ring pages [] result.older result.newer }
    {
        let older = [END; NAMED];
        let mut newer = [NONE; NAMED];
        newer[END as usize] = END;
        Links { older, newer }
    }

    pub fn holds(&self, p: u8) -> bool
        ensures value { result ≡ not (eqb (get_or self.now.newer p 0) 254) }
    {
        self.newer[p as usize] != NONE
    }

    // The page that leaves, of as many as there are frames: the oldest far one or, if none is far, the oldest.
    pub fn leaving_page(&self, plant: &Plant<'_>, last: u8) -> u8
        requires full { Full plant.now.pages plant.now.frames last self.now.newer }
        ensures leaves { Leaves plant.now.pages plant.now.distances.now plant.now.threshold plant.now.frames last
            self.now.newer result }
    {
        let oldest = self.newer[END as usize];
        let mut p = oldest;
        for _passed in 0..plant.frames {
            if plant.is_far(last, p) {
                return p;
            }
            p = self.newer[p as usize];
        }
        oldest
    }

    // Takes a page out of the ring.
    pub fn take_out(&mut self, p: u8)
        ensures older { self.new.older ≡ set self.old.older (get_or self.old.newer p 0) (get_or self.old.older p 0) }
        ensures newer { self.new.newer ≡ set self.old.newer (get_or self.old.older p 0) (get_or self.old.newer p 0) }
    {
        let before = self.newer[p as usize];
        let behind = self.older[p as usize];
        self.older[before as usize] = behind;
        self.newer[behind as usize] = before;
    }

    // Notes that a page, which was taken out, is not held.
    pub fn forget(&mut self, p: u8)
        ensures older { self.new.older ≡ self.old.older }
        ensures newer { self.new.newer ≡ set self.old.newer p 254 }
    {
        self.newer[p as usize] = NONE;
    }

    // Puts a page into the ring as the latest.
    pub fn put_first(&mut self, p: u8)
        ensures older { self.new.older ≡ set (set self.old.older p (get_or self.old.older 255 0)) 255 p }
        ensures newer { self.new.newer ≡ set (set self.old.newer p 255) (get_or self.old.older 255 0) p }
    {
        let second = self.older[END as usize];
        self.older[p as usize] = second;
        self.newer[p as usize] = END;
        self.newer[second as usize] = p;
        self.older[END as usize] = p;
    }
}
