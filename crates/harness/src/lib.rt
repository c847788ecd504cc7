// What the test programs share: a line of a list is read, and answers, records and logs are printed in words.
#![tactic(auto)]

pub mod inner;
