// Rows and their covers. A row and a set are numbers whose bits are the members; a set is a cover if it has a member of each row.
//
// `covering` tests a cover and an irredundant one, `reduction` drops the rows that need not be looked at and puts thin ones first, `keeping` puts
// in front of a buffer what a caller makes of each row. No function here knows of tables: crate `incidence` makes the rows.
#![tactic(auto)]

pub mod covering;
pub mod keeping;
pub mod reduction;
