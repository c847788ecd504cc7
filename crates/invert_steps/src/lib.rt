// The inverse of an edit that was checked, emitted.
#![tactic(auto)]

pub mod inner;
