// No second result fits the contract of a public function: no code. The laws stand in proofs/; docs/THEOREMS.md lists the functions that have none.
#![tactic(auto)]
