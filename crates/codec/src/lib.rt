// The bytes of a job.
//
// `kinds` tells the commands by their bytes and where they may stand, `operands` reads what is longer than a byte. No function here
// knows of problems.
#![tactic(auto)]

pub mod kinds;
pub mod operands;
