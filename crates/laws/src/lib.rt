// Facts about tests and lists that the kit does not have, for the proofs of every other crate. It
// has no code.
#![tactic(auto)]
