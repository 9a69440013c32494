// What the promises of the public calls come to together. The statements are in specs/, the proofs of some in proofs/; there is no code.
#![tactic(auto)]
