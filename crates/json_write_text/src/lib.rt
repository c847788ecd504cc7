// An inserted text, written as a string of a list.
#![tactic(auto)]

pub mod inner;
