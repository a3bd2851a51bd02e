// SPACE, LOCATE and REWIND: how they move over the objects of an image, where they end, and what they tell.
#![tactic(auto)]

mod counts;
mod locating;
mod spacing;

pub use locating::{locate, locate16, rewind};
pub use spacing::{space, space16};
