// The moves of a station relaxed on a search's working memory (01, "The two searches"): its cells, its waiting keys and
// its queue of pages, on which crates/cells relaxes one move. Where a station's slot, page and row stand is read from
// two lent tables, the places and the layout. A row is a time times 2048, plus a station.
#![tactic(auto)]

ghost use Rattle.std.specs.Prelude.{◌≡◌, ◌+◌, ◌/◌, ◌<◌, ◌≤◌, length, get_or};
ghost use Rattle.layout.specs.Rows.{row_of};
ghost use Rattle.cells.specs.Cells.{most_cost, Room, PlacedAt};
ghost use Rattle.relax.specs.Visits.{longest, Relaxing, Visited, Targets, LaidOut};

use cells::Memory;
use common::{NOBODY, TENTH};
use layout::moves::{begin_of, end_of};
use layout::places::{STATIONS, slot_of};

// Stations, sums and tables have their bounds by clauses, as cells/src/lib.rt says. Places and layout are two
// parameters here and in work, and no struct: the page reader is lent the layout to write and the search to read, so
// that the pair would be made anew at every reference, and each clause would name its fields.

// Relaxes some rows of the layout, which are moves of station u, whose cost is given: each leads to station `row % 2048`
// in time `row / 2048`, by one move more.
fn relax_rows(memory: &mut Memory, places: &[u16], rows: &[u32], u: usize, cost: u64)
    requires from { u < 2048 }
    requires cost { cost + longest < most_cost }
    requires room { Room places.now memory.old }
    requires targets { Targets places.now rows.now }
    ensures relaxed { Relaxing places.now u cost rows.now memory.old memory.new }
{
    for row in rows {
        let v = (*row as usize) % STATIONS;
        let sum = cost + (u64::from(*row) / (STATIONS as u64) * TENTH + 1);
        memory.offer(places, u, v, sum);
    }
}

// Relaxes the moves of station u's row in their order, at the cost that its cell has.
pub fn relax_moves(u: usize, places: &[u16], layout: &[u32], memory: &mut Memory)
    requires station { u < 2048 }
    requires cost { get_or memory.old.cells u 0 / 2048 + longest < most_cost }
    requires room { Room places.now memory.old }
    requires row { LaidOut places.now layout.now u }
    ensures relaxed { Relaxing places.now u (get_or memory.old.cells u 0 / 2048)
        (row_of layout.now u) memory.old memory.new }
{
    let cost = memory.cells[u] / (STATIONS as u64);
    // `get`, as `LaidOut` bounds where a row ends, and not where it begins.
    let row = layout
        .get(begin_of(layout, u)..end_of(layout, u))
        .unwrap_or(&[]);
    relax_rows(memory, places, row, u, cost);
}

// Visits station u: it no longer waits, and its moves are relaxed. By that it becomes fresh in the DF search, and
// settled in the plain one.
pub fn visit(u: usize, places: &[u16], layout: &[u32], memory: &mut Memory)
    requires station { u < 2048 }
    requires cost { get_or memory.old.cells u 0 / 2048 + longest < most_cost }
    requires room { Room places.now memory.old }
    requires placed { PlacedAt places.now u }
    requires row { LaidOut places.now layout.now u }
    ensures visited { Visited places.now layout.now u memory.old memory.new }
{
    memory.waiting[slot_of(places, u)] = NOBODY;
    relax_moves(u, places, layout, memory);
}
