// The worked examples of document 01: no code. The table of examples stands in specs/, its proof in proofs/.
#![tactic(auto)]
