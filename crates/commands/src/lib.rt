// Every command defined (specs/), in document 01's order and words, and what holds of every call by its definition; no code.
#![tactic(auto)]
