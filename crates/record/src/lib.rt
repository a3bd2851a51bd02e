// The drive record: thirty bytes as a `Drive` by value and back, when it is well formed, and what fresh, mount, LOAD and
// unload make of it.
#![tactic(auto)]

mod codec;
mod drive;
mod states;

pub use codec::{LOADED, RECORD_LENGTH, decode, encode, is_record};
pub use drive::Drive;
pub use states::{
    NO_ATTENTION, fresh_drive, is_well_formed, load_anew, mounted, unload, with_sense,
};
