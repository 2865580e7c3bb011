// A page in hand is worked on: its station of least waiting key is visited, in the DF search until none waits there, in
// the plain search once.

#![tactic(auto)]

ghost use Rattle.std.specs.Prelude.{◌≡◌, ◌%◌, ◌<◌};
ghost use Rattle.common.specs.Numbers.{nobody};
ghost use Rattle.work.specs.Hand.{Working, Worked};

use cells::Memory;
use common::NOBODY;
use layout::places::{first_slot, slot_of};
use queue::{least_key, set_leaf};
use relax::{relax_moves, visit};

// The station that a key names.
pub fn station_of(key: u64) -> usize
    ensures value { result ≡ key % 2048 }
{
    (key % 2048) as usize
}

// Places and layout are two parameters of each function, and no struct: relax/src/lib.rt says why.

// Works page p through, for so many turns at most: after each visit its least waiting key is looked for again, and at
// the end it is the page's leaf.
fn work_through(
    p: usize,
    turns: usize,
    key: u64,
    places: &[u16],
    layout: &[u32],
    memory: &mut Memory,
)
    requires in_hand { Working p places.now layout.now turns key memory.old }
    ensures worked { Worked p places.now layout.now turns key
        memory.old memory.new }
{
    let lo = first_slot(places, p);
    let hi = first_slot(places, p + 1);
    let mut least = key;
    for _ in 0..turns {
        if NOBODY <= least {
            break;
        }
        visit(station_of(least), places, layout, memory);
        least = least_key(&memory.waiting[lo..hi]);
    }
    set_leaf(&mut memory.queue, p, least);
}

// The only turn of page p. The page's leaf is set to the least key of those that go on waiting before the moves are
// relaxed, as what they lower reaches the leaf by itself: so neither has to wait for the other.
fn take_turn(p: usize, key: u64, places: &[u16], layout: &[u32], memory: &mut Memory)
    requires somebody { key < nobody }
    requires in_hand { Working p places.now layout.now 1 key memory.old }
    ensures worked { Worked p places.now layout.now 1 key
        memory.old memory.new }
{
    let u = station_of(key);
    memory.waiting[slot_of(places, u)] = NOBODY;
    let lo = first_slot(places, p);
    let hi = first_slot(places, p + 1);
    let others = least_key(&memory.waiting[lo..hi]);
    set_leaf(&mut memory.queue, p, others);
    relax_moves(u, places, layout, memory);
}

// Works on page p, whose least waiting key is given, for so many turns at most. By their number, which the proof speaks
// of too (`Working`): a closure for the step would have to promise the same of both.
pub fn work_page(
    p: usize,
    turns: usize,
    key: u64,
    places: &[u16],
    layout: &[u32],
    memory: &mut Memory,
)
    requires somebody { key < nobody }
    requires in_hand { Working p places.now layout.now turns key memory.old }
    ensures worked { Worked p places.now layout.now turns key
        memory.old memory.new }
{
    if turns == 1 {
        return take_turn(p, key, places, layout, memory);
    }
    work_through(p, turns, key, places, layout, memory)
}
