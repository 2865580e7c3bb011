// Both searches over whole maps as calls: the plain search (Dijkstra's) and the DF search (01, "The two searches"). A
// call tries refusals 1 to 7, lets the engine search in memory of its own, and writes what was found into the lent
// tables.

#![tactic(auto)]

pub mod calls;
pub mod own;
