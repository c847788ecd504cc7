// A step of compose.
#![tactic(auto)]

pub mod inner;
