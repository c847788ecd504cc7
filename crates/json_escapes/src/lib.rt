// The escapes of a JSON string, and whole strings.
#![tactic(auto)]

pub mod inner;
