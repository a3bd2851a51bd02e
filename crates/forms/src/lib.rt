// Sense in both forms (Q-4): which senses the services produce (specs/Produced.antt), and what a host reads of each, proved in proofs/; no code.
#![tactic(auto)]
