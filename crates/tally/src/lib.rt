// The kinds and the counts of a record, summed up.
#![tactic(auto)]

pub mod inner;
