// What offices that share an open study can do to one another and learn of one another: definitions in specs/, theorems in proofs/.
#![tactic(auto)]
