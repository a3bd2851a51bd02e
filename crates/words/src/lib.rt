// Big-endian numbers in a byte slice, runs of bytes copied and zeroed, and two's complement: the leaves under every crate.
#![tactic(auto)]

mod read;
mod run;
mod signed;
mod write;

pub use read::{array_at, be24_at, be32_at, be64_at};
pub use run::{clear_at, copy_at, copy_limited};
pub use signed::{difference, extended, signed24, signed64};
pub use write::{put32_at, set32_at};
