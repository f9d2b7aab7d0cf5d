//! Blocks of all zones of a memory that any core gives back by frame and order: each rests at a slot
//! of its own while only its numbers are out.
#![tactic(auto)]

mod bare_openings;
mod blocks;
mod by_numbers;
mod calls;
mod core_state;
mod cuts;
mod first_zone;
mod frame_list;
mod frame_numbers;
mod frames;
mod free_counts;
mod given_back;
mod homes;
mod image_parts;
mod joining;
mod laws;
mod layouts;
mod looks;
mod memory;
mod openings;
mod parts;
mod places;
mod refusal;
mod reopenings;
mod resting;
mod runs;
mod single_frame;
mod stops;
mod zone_claims;
mod zone_receipt;
mod zone_spans;

pub use bare_openings::open_bare_cores;
pub use core_state::CoreState;
pub use cuts::{may_be_held_back, pieces_in};
pub use first_zone::FirstZone;
pub use frame_list::FrameList;
pub use given_back::{FoundNone, GivenBack, Miss, Missed};
pub use image_parts::{image_numbers, image_starts};
pub use laws::{wrong_takes_are_not_told, wrong_takes_of_one_block_are_not_told};
pub use layouts::{even_zones, may_be_laid_out, zone_of};
pub use looks::{SeenRun, Sight};
pub use memory::Memory;
pub use openings::open_cores;
pub use parts::Parts;
pub use refusal::Refusal;
pub use reopenings::reopen_cores;
pub use runs::GivenRun;
pub use single_frame::SingleFrame;
pub use stops::StopFault;
pub use zone_claims::{are_in_zones, blocks_in};
pub use zone_receipt::ZoneReceipt;
pub use zone_spans::spans_of;
