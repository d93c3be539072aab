// Single bits of bytes and of 64-bit sets.
//
// A set is a number whose bits are its members. Contracts cite `specs/Bits`; the laws on them, bit by bit, are in
// `proofs/Digits`, `Members`, `Parts` and `Tops`, those on loops in `Steps`, general ones on lists in `Lists`; other crates cite these.
#![tactic(auto)]

pub mod byte;
pub mod set;
