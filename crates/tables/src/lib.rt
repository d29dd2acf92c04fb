// Tables of runs and boards that the checker computes from the definitions; nothing runs here.
// Relies on the definitions of model; nothing relies on it.
#![tactic(auto)]
