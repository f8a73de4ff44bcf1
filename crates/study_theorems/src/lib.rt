// Theorems on study files: what is written is read back, what is read is written back, and the first bytes of a long file
// decide. They stand in proofs/, over any format, and for the format of the study files.
#![tactic(auto)]
