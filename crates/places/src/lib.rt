// Operations at their places in a record.
#![tactic(auto)]

pub mod inner;
