// Buffers of bytes.
#![tactic(auto)]

pub mod inner;
