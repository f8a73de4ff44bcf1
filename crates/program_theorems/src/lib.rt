// The theorems of the programs' calls, in proofs/Theorems.antt.
#![tactic(auto)]
