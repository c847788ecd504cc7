// The texts of a JSON list's strings.
#![tactic(auto)]

pub mod inner;
