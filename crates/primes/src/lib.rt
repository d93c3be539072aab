// The primes of a table.
//
// A table comes as bytes: `may`, the outputs that are on or don't-care at each vertex (`Allowed` of crate `table`). What each cube may
// drive is found once, in a table by the cubes' numbers in base three (`numbers`, `cube_table`); which cubes are primes is looked up
// there (`cube_prime`, `prime_list`). Each contract speaks of every table that the bytes come from. proofs/Uses has what a caller
// needs of the contracts.
#![tactic(auto)]

pub mod cube_prime;
pub mod cube_table;
pub mod numbers;
pub mod prime_list;
