// The rules of before movements had a measured lane factor, and that a rating by them is kept: definitions in specs/, laws in proofs/.
#![tactic(auto)]
