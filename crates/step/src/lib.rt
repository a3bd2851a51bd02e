// One command on a drive by value: the tests in order, and then its act on the partition that it looks at.
#![tactic(auto)]

mod partitions;
mod stepping;

pub use stepping::{Served, serve_by_value};
