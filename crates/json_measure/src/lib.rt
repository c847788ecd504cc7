// A record is checked, and its list is measured.
#![tactic(auto)]

pub mod inner;
