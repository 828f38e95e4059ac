// Integer algebra for the proofs of the other crates: it has lemmas and no code.
#![tactic(auto)]
