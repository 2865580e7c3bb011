// A move relaxed on a search's working memory (01, "The two searches"): cells, in which each station has its cost and
// its predecessor; waiting, in which each slot has the key by which its station waits; and the queue of pages, which is
// told of every key that falls. Where a station's slot and page stand is read from a lent table, the places. A cell and
// a key are each a cost times 2048, plus a station. That the lesser of two cells is the rule of 01 is in
// proofs/Cells.antt; what a search cites of a move relaxed, in proofs/Relaxed.antt.
#![tactic(auto)]

ghost use Rattle.std.specs.Prelude.{◌≡◌, ◌/◌, ◌<◌, min, ltb, length, get_or, set, replicate};
ghost use Rattle.common.specs.Numbers.{nobody};
ghost use Rattle.queue.specs.Keys.{packed};
ghost use Rattle.cells.specs.Cells.{memory, most_cost, lowered_key, Relaxed, Room, PlacedAt};

use common::NOBODY;
use layout::places::{STATIONS, page_at, slot_of};
use queue::{QUEUE, lower_leaf};

// That stations are below 2048, sums below `most_cost` and tables of their sizes (`Room`) is said in clauses, here and
// in relax, and by no types: docs/DECISIONS.md names `offer`, `visit` and `relax_moves` with what they ask, and a
// number's own type would be taken apart at each index.

// A cost and a station in one number: a cell has a station's predecessor beside its cost, a key the station itself.
fn pack(cost: u64, station: usize) -> u64
    requires station { station < 2048 }
    requires cost { cost < most_cost }
    ensures value { result ≡ packed cost station }
{
    cost * (STATIONS as u64) + (station as u64)
}

// Whether `sum` is less than the cost in a cell: less time, or the same time and fewer moves.
fn lowers(sum: u64, cell: u64) -> bool
    ensures value { result ≡ ltb sum (cell / 2048) }
{
    sum < cell / (STATIONS as u64)
}

// The key by which station v waits once `sum` was offered to its cell: that of nobody where the cell is not lowered.
fn lowered_key(cell: u64, sum: u64, v: usize) -> u64
    requires station { v < 2048 }
    requires cost { sum < most_cost }
    ensures value { result ≡ lowered_key cell sum v }
{
    if lowers(sum, cell) {
        pack(sum, v)
    } else {
        NOBODY
    }
}

// The cell once `sum` was offered to it by a move from u: the lesser of itself and the cell of both.
fn lowered_cell(cell: u64, sum: u64, u: usize) -> u64
    requires from { u < 2048 }
    requires cost { sum < most_cost }
    ensures value { result ≡ min cell (packed sum u) }
{
    cell.min(pack(sum, u))
}

// The working memory: a cell for each station, a waiting key for each slot, and the queue of pages.
#[derive(Drop)]
pub struct Memory {
    pub cells: [u64; STATIONS],
    pub waiting: [u64; STATIONS],
    pub queue: [u64; QUEUE],
}

impl Memory {
    // In which nobody has a time, and nobody waits.
    pub fn new() -> Memory
        ensures empty { result ≡ memory (replicate 2048 nobody)
            (replicate 2048 nobody) (replicate 272 nobody) }
    {
        Memory {
            cells: [NOBODY; STATIONS],
            waiting: [NOBODY; STATIONS],
            queue: [NOBODY; QUEUE],
        }
    }

    // The cells, of as many stations as a map can have.
    pub fn cells(&self) -> &[u64]
        ensures value { result.now ≡ self.now.cells }
        ensures size { length result.now ≡ 2048 }
    {
        &self.cells
    }

    // A move leads from u to v, and by it v would cost `sum`: its cell becomes the lesser of itself and the cell of
    // `sum` and u, and where that lowers its cost, v waits by its new key, which is handed back. No branch, as the key
    // of nobody changes nothing.
    fn relax_cell(&mut self, u: usize, v: usize, slot: usize, sum: u64) -> u64
        requires from { u < 2048 }
        requires to { v < 2048 }
        requires cost { sum < most_cost }
        requires slot { slot < 2048 }
        ensures key { result ≡ lowered_key (get_or self.old.cells v 0) sum v }
        ensures cell { self.new.cells
            ≡ set self.old.cells v (min (get_or self.old.cells v 0) (packed sum u)) }
        ensures waits { self.new.waiting
            ≡ set self.old.waiting slot (min (get_or self.old.waiting slot 0) result) }
        ensures queue { self.new.queue ≡ self.old.queue }
    {
        let old = self.cells[v];
        let key = lowered_key(old, sum, v);
        self.cells[v] = lowered_cell(old, sum, u);
        self.waiting[slot] = self.waiting[slot].min(key);
        key
    }

    // The same, and the queue is told of the key. A search begins by it too: its source is offered cost 0.
    pub fn offer(&mut self, places: &[u16], u: usize, v: usize, sum: u64)
        requires from { u < 2048 }
        requires to { v < 2048 }
        requires cost { sum < most_cost }
        requires room { Room places.now self.old }
        requires placed { PlacedAt places.now v }
        ensures relaxed { Relaxed places.now u v sum self.old self.new }
    {
        let key = self.relax_cell(u, v, slot_of(places, v), sum);
        lower_leaf(&mut self.queue, page_at(places, v), key);
    }
}
