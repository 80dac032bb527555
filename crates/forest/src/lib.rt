// The theory of the links of a table: no code. The definitions stand in specs/, the laws in proofs/.
#![tactic(auto)]
