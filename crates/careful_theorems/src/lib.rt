// The careful edits and the mend: the theorems are in proofs/.
#![tactic(auto)]
