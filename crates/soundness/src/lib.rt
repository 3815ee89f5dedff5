// Refusal 3, "The state is unsound", stands in specs/, and laws of its clauses in proofs/.
#![tactic(auto)]
