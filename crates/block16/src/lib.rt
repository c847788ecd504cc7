// One block of sixteen bytes of text that is not ASCII.
#![tactic(auto)]

pub mod inner;
