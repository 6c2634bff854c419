// What follows from the definitions of `format` alone: see specs/. No code.
#![tactic(auto)]
