// The marked cases of document 01, of the plain machine, stand in specs/ and are proved in proofs/.
#![tactic(auto)]
