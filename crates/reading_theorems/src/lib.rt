// Accepted images are exactly the well-formed ones: the theorems are in specs/.
#![tactic(auto)]
