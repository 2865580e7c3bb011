// The moves of each station as a row of numbers: where rows begin and end (specs/Rows.antt).
ghost use Rattle.std.specs.Prelude.{◌≡◌, ◌+◌, ◌<◌, length};
ghost use Rattle.layout.specs.Rows.{begin_of, end_of};

use crate::places::STATIONS;

// The entries of `layout`: the begins of the stations' rows, then their ends, then room for the moves of each page. One
// table and no struct of three: a reader takes any slice that reaches as far as it reads (the clauses `inside`).
pub const END_FROM: usize = STATIONS;

pub const ROOM_FROM: usize = 4096;

pub const LAYOUT: usize = 17152;

// As many moves as the 256 bytes of a page can have.
pub const PAGE_MOVES: usize = 51;

pub fn begin_of(layout: &[u32], v: usize) -> usize
    requires inside { v < length layout.now }
    ensures value { result ≡ begin_of layout.now v }
{
    layout[v] as usize
}

pub fn end_of(layout: &[u32], v: usize) -> usize
    requires inside { 2048 + v < length layout.now }
    ensures value { result ≡ end_of layout.now v }
{
    layout[END_FROM + v] as usize
}
