// A node of the search for the cheapest cover: what is left of the rows there, and how the search goes on.
//
// `node` says where the search stands. `plan` decides: `residue` keeps what is left of the rows, crate `cheapest_bounds` tells what any
// cover must still cost, `dominance` drops candidates that others stand in for, `components` parts what can be searched apart, `branching`
// chooses a candidate.
#![tactic(auto)]

pub mod branching;
pub mod components;
pub mod dominance;
pub mod node;
pub mod plan;
pub mod residue;
