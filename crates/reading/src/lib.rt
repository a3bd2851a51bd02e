// READ: what it leaves of the drive, and what it carries into the receiving buffer.
#![tactic(auto)]

mod blocks;

pub use blocks::read;
