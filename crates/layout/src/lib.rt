// The two tables by which the page reader hands a map over to the engine: where each station stands (`places`), and the
// moves of each station as a row of numbers (`layout`). Nobody behind the reader looks at a page's bytes.
#![tactic(auto)]

pub mod moves;
pub mod places;
