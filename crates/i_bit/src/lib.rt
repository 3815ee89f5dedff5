// "I has no effect here." stands in specs/ and is proved in proofs/.
#![tactic(auto)]
