// The three demands as theorems: see specs/ and proofs/. Nothing here runs.
#![tactic(auto)]
