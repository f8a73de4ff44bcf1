// What is written is read back: the theorems of a junction's text, which bind its writer to its reader.
#![tactic(auto)]
