// The tables that a search is lent, written at its end: the times, moves and predecessors that the engine leaves in
// cells, and the marks, in windows that have an entry for each station (four slices: why, is said at `reply::on_map`).

#![tactic(auto)]

ghost use Rattle.std.specs.Prelude.{◌≡◌, ◌≤◌, ◌<◌, length, set, ltb};
ghost use Rattle.common.specs.Costs.{time_in, moves_in, no_cost};
ghost use Rattle.net.specs.Net.{one};
ghost use Rattle.tables.specs.Finishing.{shown, cost_in, pred_in, Finished};

use common::{NO_COST, NO_PRED, NOBODY, SOURCE, TENTH};

// The cell that is shown of a station: its own if the search is over, nobody's if a bad page ended it.
fn shown(over: bool, cell: u64) -> u64
    ensures value { result ≡ shown over cell }
{
    if over { cell } else { NOBODY }
}

// The cost that a cell shows; one too high for a cost is none.
fn cost_in(cell: u64) -> u64
    ensures value { result ≡ cost_in cell }
{
    (cell / 2048).min(NO_COST)
}

fn time_in(cell: u64) -> u32
    ensures value { result ≡ time_in (cost_in cell) }
{
    (cost_in(cell) / TENTH) as u32
}

fn moves_in(cell: u64) -> u16
    ensures value { result ≡ moves_in (cost_in cell) }
{
    (cost_in(cell) % TENTH) as u16
}

fn pred_in(cell: u64) -> u16
    ensures value { result ≡ pred_in cell }
{
    if cell == 0 {
        return SOURCE;
    }
    if cell / 2048 < NO_COST {
        return (cell % 2048) as u16;
    }
    NO_PRED
}

// Writes the entries of station v, and answers whether it has a time.
fn write_station(
    v: usize,
    over: bool,
    cell: u64,
    times: &mut [u32],
    moves: &mut [u16],
    preds: &mut [u16],
) -> bool
    requires inside { (v < length times.old) × ((v < length moves.old) × (v < length preds.old)) }
    ensures times { times.new ≡ set times.old v (time_in (cost_in (shown over cell))) }
    ensures moves { moves.new ≡ set moves.old v (moves_in (cost_in (shown over cell))) }
    ensures preds { preds.new ≡ set preds.old v (pred_in (shown over cell)) }
    ensures reached { result ≡ ltb (cost_in (shown over cell)) no_cost }
{
    times[v] = time_in(shown(over, cell));
    moves[v] = moves_in(shown(over, cell));
    preds[v] = pred_in(shown(over, cell));
    cost_in(shown(over, cell)) < NO_COST
}

// Writes the windows of the tables, which have an entry for each station, and answers how many stations have a time. A
// search that a bad page ended has cells too, which are not shown: so the flag stands beside them, and no Option in
// their place.
pub fn finish(
    over: bool,
    cells: &[u64],
    times: &mut [u32],
    moves: &mut [u16],
    preds: &mut [u16],
    marks: &mut [u8],
) -> usize
    requires cells { length times.old ≤ length cells.now }
    requires sizes { (length moves.old ≡ length times.old) ×
        ((length preds.old ≡ length times.old) × (length marks.old ≡ length times.old)) }
    ensures finished { Finished over cells.now (length times.old)
        times.new moves.new preds.new marks.new result }
{
    marks.fill(0);
    let mut reached: usize = 0;
    for v in 0..times.len() {
        reached += usize::from(write_station(v, over, cells[v], times, moves, preds));
    }
    reached
}
