// An edit that was checked, played on a text of its base.
#![tactic(auto)]

pub mod inner;
