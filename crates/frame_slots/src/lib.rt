//! Slots at which blocks of one allocator rest while only their numbers are out, and the numbers of
//! images.
#![tactic(auto)]

mod by_numbers;
mod claims;
mod free_blocks;
mod gaps;
mod held_back;
mod numbers;
mod receipt;
mod replay;
mod slot;
mod slots;

pub use claims::{are_apart, are_held_as, is_claimed};
pub use numbers::{CHILD_NUMBERS, is_free, is_held, is_huge, is_image};
pub use receipt::Receipt;
pub use replay::MOST_STEPS;
pub use slot::Slot;
pub use slots::SlotList;
