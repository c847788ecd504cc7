// A record extended by one operation.
#![tactic(auto)]

pub mod inner;
