// Steps over the front operations of two records.
#![tactic(auto)]

pub mod inner;
