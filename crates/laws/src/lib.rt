// Laws that the proofs cite. They are in specs/ and proofs/; there is no code.
#![tactic(auto)]
