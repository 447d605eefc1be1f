// Laws that the proofs of every crate share. No code.
#![tactic(auto)]
