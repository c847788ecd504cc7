// What comes of an edit and a revision is stored.
#![tactic(auto)]

pub mod inner;
