// Steps of proofs by hand, over the toolchain's own: for a function that the borrow checker does not cover. Laws alone.
#![tactic(auto)]
