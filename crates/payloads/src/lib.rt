// The bytes that REQUEST SENSE, READ BLOCK LIMITS, MODE SENSE and READ POSITION return, and those that MODE SELECT takes.
#![tactic(auto)]

mod asked;
mod data;
mod list;
mod position;

pub use asked::{asked_length, sense_asked};
pub use data::{block_limits, mode_data, mode_header};
pub use list::{is_list_right, new_length};
pub use position::{long_position, short_position};
