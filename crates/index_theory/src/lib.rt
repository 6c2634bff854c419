// What follows from the definitions of `format` of an index in memory (document 02, L8): the files of specs/, in the
// order of specs/Lib.antt. No code.
#![tactic(auto)]
