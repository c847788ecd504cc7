// The record of a sequence: the definitions of its layout, of its check and of what is asked of it, and their laws.
#![tactic(auto)]

pub mod inner;
