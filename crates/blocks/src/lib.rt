// Text checked by blocks.
#![tactic(auto)]

pub mod inner;
