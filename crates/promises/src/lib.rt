// What the engineer signs for: the demands as theorems over the definitions that the public contracts cite (specs/). No
// code.
#![tactic(auto)]
