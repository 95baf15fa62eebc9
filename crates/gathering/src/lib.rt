// The gathered copy of an image: its rule and what is stated of it are in specs/, the theorems in proofs/.
#![tactic(auto)]
