// A step of transform.
#![tactic(auto)]

pub mod inner;
