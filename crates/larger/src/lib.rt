// Larger blocks (Q-7): the rules by 65,536 and by 1,048,576 side by side, a block put whole, and the longest transfer
// (specs/), proved in proofs/; no code.
#![tactic(auto)]
