// Two SPACEs or one (Q-12): when a scheduler may merge them (specs/Merged.antt), proved in proofs/; no code.
#![tactic(auto)]
