// The list of what an amendment reaches is right: no code, the theorem stands in proofs/Untouched.antt.
#![tactic(auto)]
