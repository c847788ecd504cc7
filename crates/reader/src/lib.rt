// A record that was checked, read.
#![tactic(auto)]

pub mod inner;
