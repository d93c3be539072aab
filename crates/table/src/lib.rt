// Cells, cubes, terms and blocks of a table.
//
// A table comes as bytes: `on` for each vertex, or `may`, the outputs that are on or don't-care there (`Allowed` of specs/Cubes).
// Each contract speaks of every table that these bytes come from, and names the definition of crate `model` that the function
// computes. proofs/Uses has what a caller needs of the contracts.
//
// What the cube of one term may drive is found by its halves; crate `primes` has a table of what each cube may drive.
#![tactic(auto)]

pub mod blocks;
pub mod cells;
pub mod cubes;
pub mod terms;
