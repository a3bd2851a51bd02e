// The partition image read: whether it is sound, its trailer and directory, and where its objects lie.
#![tactic(auto)]

mod entries;
mod part;
mod sound;
mod whole;

pub use entries::{
    DIRECTORY, ENTRY, FILEMARK, FLAGS, SIZE, TRAILER, count_of, end_at, filemarks_before, flags_of,
    in_zone, is_filemark, is_protected, object_fits, room_at,
};
pub use part::{Part, block_at, block_part};
pub use sound::{fault_of, has_right_length, is_sound};
pub use whole::Image;
