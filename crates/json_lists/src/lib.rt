// Edits as JSON lists (RFC 8259), as document 02 has them: the definitions and their laws, and the marks of a list.
#![tactic(auto)]

pub mod inner;
