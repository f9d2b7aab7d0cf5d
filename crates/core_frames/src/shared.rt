//! The allocator that threads share, from its opening to its closing or its stop, and desks.

pub(crate) mod allocator;
mod calls;
mod closings;
mod desk;
mod fills;
pub(crate) mod found;
mod gathering;
mod halves;
mod kept_blocks;
mod left_frames;
mod looks;
mod openings;
mod places;
mod reopenings;
mod stops;
mod survivors;

pub use allocator::{Allocator, Core};
pub use closings::CloseFault;
pub use desk::Desk;
pub use survivors::Survivors;
