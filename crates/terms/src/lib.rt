// Terms 1 to 3 stand in specs/ and proofs/.
#![tactic(auto)]
