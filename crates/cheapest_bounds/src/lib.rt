// What sets of candidates cost, and what a cover must cost at least, over rows as crate `rows` has them.
//
// `costs` adds up, `units` tells in what steps costs come. A cover pays for each row: `disjoint` adds up a floor for each of some rows that
// have no candidate in common, `ascent` lets each row charge its members, so that rows with a common member share its cost.
#![tactic(auto)]

pub mod ascent;
pub mod costs;
pub mod disjoint;
pub mod units;
