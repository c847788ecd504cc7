// Records appended to a log.
#![tactic(auto)]

pub mod inner;
