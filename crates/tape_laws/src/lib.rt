// What is true of tape lines, of the algorithm's own tape and of two tapes compared; nothing runs here.
// Relies on the definitions and the theorems of model; the comparison of tapes relies on them.
#![tactic(auto)]
