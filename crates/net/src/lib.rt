// The net: what a map of stations and timed moves means, apart from its bytes. The definitions of walks and of both
// searches stand in specs/, and the laws about them in proofs/. Code above this crate shares only the type below.

#![tactic(auto)]

// What is chosen from a number of stations: one of them, or nobody where none qualifies.
#[derive(Clone, Copy)]
pub enum Choice {
    Station(usize),
    Nobody,
}
