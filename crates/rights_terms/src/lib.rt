// That the table worked out is the constant table, and holds the rule that an access uses, stands in specs/ and is proved in proofs/.
#![tactic(auto)]
