// The kinds and the counts of a record, entry by entry.
#![tactic(auto)]

pub mod inner;
