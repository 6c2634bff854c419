// What follows from the definitions of `format` of the tree's walk (document 02, L9): the files of specs/, in the order
// of specs/Lib.antt. It has no code.
#![tactic(auto)]
