// The image written: objects put, cuts, clearing, N and D.
#![tactic(auto)]

mod events;

pub use events::{Object, cut, cut_clearing, put, retitle};
