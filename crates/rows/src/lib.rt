// The rows of a page: a station's row begun, and a move laid out in it, if it is open to the strip.

#![tactic(auto)]

ghost use Rattle.std.specs.Prelude.{◌≡◌, ◌+◌, ◌<◌, length, set, leb};
ghost use Rattle.common.specs.Pick.{pick};
ghost use Rattle.layout.specs.Rows.{entry_of};

use commands::Move;
use layout::moves::END_FROM;
use layout::places::STATIONS;

// A layout is any slice that reaches as far as it is written, and an entry a plain number, both bounded by clauses:
// docs/DECISIONS.md names `begin_row`, `lay_move` and `lay_limited` with what they ask.

// Begins the row of station v at entry k, without a move yet.
pub fn begin_row(layout: &mut [u32], v: usize, k: usize)
    requires station { 2048 + v < length layout.old }
    requires entry { k < 65536 }
    ensures begun { layout.new ≡ set (set layout.old v k) (2048 + v) k }
{
    layout[v] = k as u32;
    layout[END_FROM + v] = k as u32;
}

// A move as an entry of a row.
fn entry_of(m: Move) -> u32
    ensures value { result ≡ entry_of m.time m.target }
{
    m.time as u32 * (STATIONS as u32) + m.target as u32
}

// The least target that rises behind a move.
pub fn least_behind(m: Move) -> usize
    ensures value { result ≡ m.target + 1 }
{
    m.target as usize + 1
}

// Lays out a move of station v at entry k, behind the moves that its row has, and gives the entry for the next one. Its
// two writes stand in lay_limited too: by one function for both the whole check of a full map takes 6 percent longer.
pub fn lay_move(layout: &mut [u32], v: usize, k: usize, m: Move) -> usize
    requires station { 2048 + v < length layout.old }
    requires inside { k < length layout.old }
    requires entry { k < 65536 }
    ensures next { result ≡ k + 1 }
    ensures laid { layout.new
        ≡ set (set layout.old k (entry_of m.time m.target)) (2048 + v) (k + 1) }
{
    layout[k] = entry_of(m);
    layout[END_FROM + v] = k as u32 + 1;
    k + 1
}

// The entry behind that of a move with a limit: the next one if the limit is not below the strip's length, by which the
// move is open, and else its own.
fn behind_limited(k: usize, strip: u16, m: Move) -> usize
    requires entry { k < 65536 }
    ensures value { result ≡ pick (leb strip m.limit) (k + 1) k }
{
    if strip <= m.limit { k + 1 } else { k }
}

// Lays out a move with a limit likewise, if it is open to the strip. A closed one is written too, but its row ends
// before it, and the next move or row takes its entry: so nothing has to wait for the comparison.
pub fn lay_limited(layout: &mut [u32], v: usize, k: usize, strip: u16, m: Move) -> usize
    requires station { 2048 + v < length layout.old }
    requires inside { k < length layout.old }
    requires entry { k < 65536 }
    ensures next { result ≡ pick (leb strip m.limit) (k + 1) k }
    ensures laid { layout.new ≡ set (set layout.old k (entry_of m.time m.target))
        (2048 + v) (pick (leb strip m.limit) (k + 1) k) }
{
    let behind = behind_limited(k, strip, m);
    layout[k] = entry_of(m);
    layout[END_FROM + v] = behind as u32;
    behind
}
