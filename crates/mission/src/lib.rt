// The mission's sentences as theorems over the definitions that the other crates' contracts cite: see specs/ and proofs/. There is no code here.
#![tactic(auto)]
