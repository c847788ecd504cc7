// Calls on a session's log, for the programs `sessions` and `label`.
#![tactic(auto)]

pub mod inner;
