// A step of rebasing.
#![tactic(auto)]

pub mod inner;
