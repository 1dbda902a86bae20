// The mathematics of the verdict and of spare time, over any worst time that has the laws: theorems, and no code.
#![tactic(auto)]
