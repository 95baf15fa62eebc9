// The starred examples of document 01 are proved in specs/.
#![tactic(auto)]
