// What the replay's definitions imply stands in specs/ and is proved in proofs/.
#![tactic(auto)]
