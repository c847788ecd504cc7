// The layout of a record.
#![tactic(auto)]

pub mod inner;
