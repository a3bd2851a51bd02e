// The loops of READ, WRITE and WRITE FILEMARKS: runs of blocks read from an image, and objects put into one while each fits.
#![tactic(auto)]

mod puts;
mod runs;

pub use puts::{put_blocks, put_filemarks};
pub use runs::{Blocks, Ended, read_blocks};
