// The condition of each test of a command, by document 01's order, and the bytes that numbers 2 and 3 compare.
#![tactic(auto)]

mod conditions;
mod needs;

pub use conditions::{
    attention_waits, is_any_field_wrong, is_list_length_wrong, is_partition_wrong,
    is_without_cartridge, is_write_stopped,
};
pub use needs::{needed, taken};
