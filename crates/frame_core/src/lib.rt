//! The memory of a page frame allocator as plain data, and the trait of the atomic steps that takes and
//! gives are made of.
#![tactic(auto)]

mod image;
pub mod layout;
mod moves;
mod step;
pub mod turns;

pub use frame_model::{Amount, Eye, FrameBlock, HeldBlock, Key, Place, PlainBlock, Sighting, View};
pub use image::Image;
pub use moves::Moves;
pub use step::Step;
