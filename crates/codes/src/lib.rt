// Command blocks: their lengths, the commands served, the masks of their bytes, and their fields.
#![tactic(auto)]

mod block;
mod fields;
mod lengths;
mod masks;
mod operation;

pub use block::{is_too_short, masks_hold};
pub use fields::{
    allocation, asks_descriptors, changes_partition, dbd, destination, fixed, form, identifier,
    load, long, object, page, partition, partition16, pf, sili, space_code, space_count,
    space_count16, transfer,
};
pub use operation::Operation;
