// WRITE, WRITE FILEMARKS and ERASE: what they leave of the drive and of the partition.
#![tactic(auto)]

mod erasing;
mod putting;

pub use erasing::erase;
pub use putting::{write, write_filemarks};
