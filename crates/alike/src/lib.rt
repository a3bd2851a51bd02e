// The sixteen-byte commands against the short ones, call by call (specs/Alike.antt), proved in proofs/Alike.antt and proofs/Files.antt; no code.
#![tactic(auto)]
