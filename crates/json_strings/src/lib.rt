// The strings of a JSON list.
#![tactic(auto)]

pub mod inner;
