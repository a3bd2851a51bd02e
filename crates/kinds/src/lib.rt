// Which rules of document 01 speak of which command, the field errors of each, and the numbers that their code shares.
#![tactic(auto)]

mod errors;
mod kinds;
mod numbers;

pub use errors::{bytes_asked, is_field_wrong};
pub use kinds::{is_served, locates, named_partition, needs_cartridge, passes_attention, writes};
pub use numbers::{
    ALL_PAGES, BY_END, BY_FILE, BY_OBJECT, HEADER_LENGTH, LIMITS_LENGTH, LONG_FORM, LONG_LENGTH,
    NO_PAGE, OVER_BLOCKS, OVER_FILEMARKS, SHORT_FORM, SHORT_LENGTH, TO_END, WHOLE_LENGTH,
};
