// An edit is moved past revisions.
#![tactic(auto)]

pub mod inner;
