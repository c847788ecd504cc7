// The values of a JSON list.
#![tactic(auto)]

pub mod inner;
