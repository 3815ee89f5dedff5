// The marked cases of document 01, of the library's machine, stand in specs/ and are proved in proofs/.
#![tactic(auto)]
