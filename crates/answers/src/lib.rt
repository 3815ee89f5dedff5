// What every answer of the library's machine is, by its call, stands in specs/ and is proved in proofs/.
#![tactic(auto)]
