// Theorems on a diamond's worksheet: the picked plan is the best that is allowed, nothing is taken off that is not there, and every
// cell fits 32 bits. They stand in proofs/.
#![tactic(auto)]
