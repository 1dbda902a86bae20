// What is promised: theorems over the other crates, and no code.
#![tactic(auto)]
