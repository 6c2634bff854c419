// Worked examples: theorems of specs/, by computation. No code.
#![tactic(auto)]
