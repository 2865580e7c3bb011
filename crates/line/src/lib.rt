// A record of the program `coils` and the lines that it can print for it (01, "Route, whole check, program"): the
// record's parts, and the line of these parts with the numbers of an accepted search, or with a refusal's number.

#![tactic(auto)]

pub mod lines;
pub mod records;
