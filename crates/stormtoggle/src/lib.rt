// The entry points for C over numbers and byte slices: decode, call, encode, pack. No service has a `requires`: what is not right is refused by
// number. The work stands in the crates below.
#![tactic(auto)]

mod command_entry;
mod house_entries;

pub use command_entry::command;
