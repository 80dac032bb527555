// What is promised of every table that the validator says yes to: no code. The statements stand in specs/, the proofs in proofs/.
#![tactic(auto)]
