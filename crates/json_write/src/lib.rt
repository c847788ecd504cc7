// The list of a record that was checked, written.
#![tactic(auto)]

pub mod inner;
