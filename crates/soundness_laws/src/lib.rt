// What soundness means, and that every access and CP15 call keeps it, stand in proofs/.
#![tactic(auto)]
