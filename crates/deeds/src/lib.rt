// What the acts of the commands share: GOOD and CHECK CONDITION, and the senses of what is met or could not be put.
#![tactic(auto)]

mod deeds;
mod senses;

pub use deeds::{Left, at, checked, crossing, good, target_of, unattended};
pub use senses::{
    beginning_met, end_met, end_told, filemark_met, filemark_told, odd_met, overflowed, warned,
};
