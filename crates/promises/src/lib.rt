// What is promised: every headline theorem, restated in document 01's order in proofs/Promises.antt. There is no code here.
#![tactic(auto)]
