// That a run can keep the rules, and that each rule is needed: specs/ and proofs/.
#![tactic(auto)]
