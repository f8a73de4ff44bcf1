// The theorems that everything else serves, in proofs/Theorems.antt.
#![tactic(auto)]
