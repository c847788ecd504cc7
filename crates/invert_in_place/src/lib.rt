// The way of `invert` in place.
#![tactic(auto)]

pub mod inner;
