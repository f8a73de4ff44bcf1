// How large the lines of an acceptable approach can be. There is no code here: specs/ names each bound once, and proofs/ has
// the laws, stated over the definitions of the lines.
#![tactic(auto)]
