// What the edits do to an image, and demand 3: the theorems are in specs/ and proofs/.
#![tactic(auto)]
