// The inserted texts of a record.
#![tactic(auto)]

pub mod inner;
