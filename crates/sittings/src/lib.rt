// No code: when folding in two sittings gives the bytes of folding at once.
#![tactic(auto)]
