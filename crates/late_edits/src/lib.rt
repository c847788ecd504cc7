// Late edits.
#![tactic(auto)]

pub mod inner;
