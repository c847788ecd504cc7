// What a session is: definitions and laws. The calls are in crates of their own.
#![tactic(auto)]
