// The block length (Q-3): who sets it, and what it has a say in (specs/Lengths.antt), proved in proofs/; no code.
#![tactic(auto)]
