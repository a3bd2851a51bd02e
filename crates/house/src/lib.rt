// The house services over bytes that may refuse: fresh, mount, blank, protection. None has a `requires`: what is not
// right is a `Refusal`.
#![tactic(auto)]

mod cartridge;
mod images;
mod records;

pub use images::{blank, protect};
pub use records::{fresh, mount};
