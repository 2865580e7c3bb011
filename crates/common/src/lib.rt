// What the crates say alike, by one name each: the numbers that stand for nothing in a table or a key (the same numbers
// in specs/Numbers.antt), time and moves as one cost (specs/Costs.antt), chains of predecessors (specs/Chains.antt),
// the choice by a test (specs/Pick.antt), and a part of a table written (specs/Window.antt).

#![tactic(auto)]

// The time of a station that has none.
pub const NO_TIME: u32 = 4294967295;

// What a tenth of a second adds to a cost; a move adds 1. And the cost of a station that has no time.
pub const TENTH: u64 = 65536;

pub const NO_COST: u64 = 281474976710655;

// The predecessor of the source, and that of a station that has none.
pub const SOURCE: u16 = 65534;

pub const NO_PRED: u16 = 65535;

// The key by which nobody waits, and the cell of a station without a time: above that of every station.
pub const NOBODY: u64 = 18446744073709551615;
