// The cheapest cover of rows, as crate `rows` has them; the least number among equally cheap ones.
//
// `search` goes node by node as crate `cheapest_nodes` says. `greedy` finds a first cover to beat. `limited` stops at the first cover
// below a limit.
#![tactic(auto)]

pub mod greedy;
pub mod limited;
pub mod search;
