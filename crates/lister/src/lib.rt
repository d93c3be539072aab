// The lister: the irredundant covers of rows in rising order, as crate `rows` has them.
//
// `cursor` goes through the ranges of numbers and leaves out those that hold no irredundant cover: crate `lister_narrowing` is the quick test, which
// also narrows what is left to decide, and crate `lister_extension` the exact one. Of the ranges above a number, `levels` leaves out most by one pass.
#![tactic(auto)]

pub mod cursor;
pub mod levels;
