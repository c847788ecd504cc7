// Two inserts that meet.
#![tactic(auto)]

pub mod inner;
