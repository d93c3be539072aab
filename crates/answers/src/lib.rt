// The bytes of the answers of a job.
//
// `writers` puts the answers in front of the free part of a buffer; proofs/Bytes has the laws on bytes that stand in front of a part.
// No function here knows of problems.
#![tactic(auto)]

pub mod writers;
