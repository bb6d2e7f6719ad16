// What follows from the rules. There is no code here: specs/ has the statements, proofs/ their proofs.
#![tactic(auto)]
