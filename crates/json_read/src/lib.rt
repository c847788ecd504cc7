// A JSON list, read into an emitter.
#![tactic(auto)]

pub mod inner;
