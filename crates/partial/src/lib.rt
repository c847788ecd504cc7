// The partial results of composing a log's revisions, each in the buffer of the one before.
#![tactic(auto)]

pub mod inner;
