// ASCII in text.
#![tactic(auto)]

pub mod inner;
