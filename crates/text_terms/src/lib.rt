// What holds of the text of a sound state stands in specs/ and is proved in proofs/.
#![tactic(auto)]
