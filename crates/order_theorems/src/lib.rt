// That two edits of different files which are done in both orders leave the same files, attributes and bytes is stated in specs/ and proved in proofs/.
#![tactic(auto)]
