// METHOD 11, the pencil cases: no code, one list in specs/ and one proof in proofs/.
#![tactic(auto)]
