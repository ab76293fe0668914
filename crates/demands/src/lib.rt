// No code: the theorems of proofs/Demands.antt are what the crates below promise, demand by demand.
#![tactic(auto)]
