// Revisions of a log, played on a text.
#![tactic(auto)]

pub mod inner;
