// What the definitions of `scheme` mean, as theorems (docs/DEMANDS.md says what for). They are in specs/ and proofs/; there is no code.
#![tactic(auto)]
