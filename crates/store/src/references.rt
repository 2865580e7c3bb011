// The references of a list, one after the other, and the reads that they take.

ghost use Rattle.std.specs.Prelude.{◌≡◌, [], ◌≤◌, ◌<◌, length};
ghost use Rattle.image.specs.Image.{first_not_below};
ghost use Rattle.paging.specs.Store.{reads_from};
ghost use Rattle.store.specs.Ring.{Store, Room, Referred};

use super::plant::Plant;
use super::ring::Links;

// Makes room for a page that is to be read: if every frame holds a page, one leaves. Frames are free as long as there
// were fewer reads.
fn make_room(links: &mut Links, plant: &Plant<'_>, last: u8, reads: usize)
    requires store { Store plant.now.pages plant.now.frames last reads links.old.older links.old.newer }
    ensures room { Room plant.now.pages plant.now.distances.now plant.now.threshold plant.now.frames last reads
        links.old.older links.old.newer links.new.older links.new.newer }
    ensures memory { (length links.new.older ≡ 256) × (length links.new.newer ≡ 256) }
{
    if reads < plant.frames {
        return;
    }
    let p = links.leaving_page(plant, last);
    links.take_out(p);
    links.forget(p);
}

// Refers to a page after so many reads, and gives the number of reads with it.
fn refer(links: &mut Links, plant: &Plant<'_>, p: u8, last: u8, reads: usize) -> usize
    requires store { Store plant.now.pages plant.now.frames last reads links.old.older links.old.newer }
    requires page { p < plant.now.pages }
    requires reads { reads < 18446744073709551615 }
    ensures referred { Referred plant.now.pages plant.now.distances.now plant.now.threshold plant.now.frames p last
        reads links.old.older links.old.newer result links.new.older links.new.newer }
    ensures memory { (length links.new.older ≡ 256) × (length links.new.newer ≡ 256) }
{
    if links.holds(p) {
        links.take_out(p);
        links.put_first(p);
        return reads;
    }
    make_room(links, plant, last, reads);
    links.put_first(p);
    reads + 1
}

// The reads of a list by a store that holds nothing at first.
pub fn replay_list(list: &[u8], plant: &Plant<'_>) -> usize
    requires entries { length list.now ≤ first_not_below plant.now.pages list.now }
    ensures value { result ≡
        reads_from plant.now.pages plant.now.distances.now plant.now.threshold plant.now.frames [] list.now }
{
    let mut links = Links::new();
    let mut last: u8 = 0;
    let mut reads: usize = 0;
    for &p in list {
        reads = refer(&mut links, plant, p, last, reads);
        last = p;
    }
    reads
}
