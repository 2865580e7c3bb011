// The queue of pages: which page has the least waiting key, in an array that the caller lends. Entries 0 to 255 are the
// leaves, one for each page: the least key by which a station of the page waits. Entry 256 + g is group g, the least of
// the 16 leaves from 16 * g on. A new `[NOBODY; QUEUE]` is the queue in which nobody waits. What a search cites of the
// queue is in proofs/Groups.antt, of the least of some keys in proofs/Least.antt, of a key's parts in proofs/Keys.antt.
#![tactic(auto)]

ghost use Rattle.std.specs.Prelude.{◌≡◌, ◌<◌, ◌≤◌, min, get_or, take};
ghost use Rattle.queue.specs.Keys.{least_in};
ghost use Rattle.queue.specs.Queue.{Groups, Put, leaves_of};

use common::NOBODY;

// The leaves, and how many of them make a group; there are as many groups. And the entries in all.
const LEAVES: usize = 256;

const GROUP: usize = 16;

pub const QUEUE: usize = 272;

// The least of four keys. `min` is compiled to a conditional move: relaxing and choosing have no branch that a processor
// could guess wrongly.
fn least_of(keys: &[u64; 4]) -> u64
    ensures value { result
        ≡ min (min (get_or keys.now 0 0) (get_or keys.now 1 0))
        (min (get_or keys.now 2 0) (get_or keys.now 3 0)) }
{
    keys[0].min(keys[1]).min(keys[2].min(keys[3]))
}

// The least of some keys. Four of them are compared in a turn, so that the least so far waits for one comparison and
// not for four.
#[tactic(auto, using(crate::proofs::Scan::scan_start, crate::proofs::Scan::scan_one, crate::proofs::Scan::scan_four))]
pub fn least_key(keys: &[u64]) -> u64
    ensures least { result ≡ least_in keys.now }
{
    let (fours, rest) = keys.as_chunks::<4>();
    let mut least = NOBODY;
    for four in fours {
        least = least.min(least_of(four));
    }
    for key in rest {
        least = least.min(*key);
    }
    least
}

// That each group is the least of its leaves (`Groups`) is a clause of the three functions below, and no ghost field of
// a queue type: `memory` (cells/specs/Cells.antt) and `without_waiting` (relax/specs/Visits.antt) make a memory out of
// lists, and would have to carry the proof of it.

// The leaf of page p becomes the lesser of itself and `key`. No other leaf of its group has to be looked at.
pub fn lower_leaf(queue: &mut [u64], p: usize, key: u64)
    requires page { p < 256 }
    requires groups { Groups queue.old }
    ensures lowered { Put queue.old p (min (get_or queue.old p 0) key) queue.new }
{
    let group = LEAVES + p / GROUP;
    queue[p] = queue[p].min(key);
    queue[group] = queue[group].min(key);
}

// The leaf of page p becomes `key`, which may be greater than it was.
pub fn set_leaf(queue: &mut [u64], p: usize, key: u64)
    requires page { p < 256 }
    requires groups { Groups queue.old }
    ensures changed { Put queue.old p key queue.new }
{
    let g = p / GROUP;
    queue[p] = key;
    queue[LEAVES + g] = least_key(&queue[GROUP * g..GROUP * g + GROUP]);
}

// The least key of the first `pages` pages, and of those that fill up their last four groups. On a map of few pages
// most groups are nobody's, and not looked at; four are looked at in a turn.
pub fn top(queue: &[u64], pages: usize) -> u64
    requires pages { pages ≤ 256 }
    requires groups { Groups queue.now }
    ensures least { result ≡ least_in (take (leaves_of pages) queue.now) }
{
    least_key(&queue[LEAVES..LEAVES + (pages + 63) / 64 * 4])
}
