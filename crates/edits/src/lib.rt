// Edits of a text, as sequences of operations: the definitions and their laws. There is no code here.
#![tactic(auto)]
