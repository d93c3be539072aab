// Which candidates hold which on cells of a table: the rows of its covering matrix, and the cover test.
//
// A table comes as its bytes `on` for each vertex, as in crate `table`. Each contract speaks of every table that these bytes come
// from (`OnBytes` of specs/Rows) and of every list of candidates that the arrays store (`Stored` of specs/Stored), and names the definition
// of crate `model` that the function computes. proofs/Uses has what a caller needs of the contracts.
#![tactic(auto)]

pub mod blocks;
pub mod presence;
pub mod rows;
