// Characters counted.
#![tactic(auto)]

pub mod inner;
