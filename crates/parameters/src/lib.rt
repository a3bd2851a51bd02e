// The commands that give or take parameter data: REQUEST SENSE, READ BLOCK LIMITS, MODE SENSE, MODE SELECT, READ POSITION.
#![tactic(auto)]

mod position;
mod replies;
mod selecting;

pub use position::read_position;
pub use replies::{mode_sense, read_block_limits, request_sense};
pub use selecting::select;
