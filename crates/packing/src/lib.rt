// Answers as numbers of 64 bits.
#![tactic(auto)]

pub mod inner;
