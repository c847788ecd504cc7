// The emitter.
#![tactic(auto)]

pub mod inner;
