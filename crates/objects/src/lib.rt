// What a partition holds, how SPACE moves over it, and what puts and cuts make of it: definitions (specs/) and their laws
// (proofs/). The crates above prove their code against these.
#![tactic(auto)]

// The largest block.
pub const LARGEST_BLOCK: u32 = 1_048_576;
