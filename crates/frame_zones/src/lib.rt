//! One memory made of several allocators, its zones, and used as one.
#![tactic(auto)]

mod block;
mod closings;
mod fills;
mod free_counts;
mod gives;
mod homes;
mod image;
mod joins;
mod kept_blocks;
mod last_zone;
mod laws;
mod looks;
mod numbers;
mod openings;
mod pairs;
mod places;
mod ranges;
mod reopenings;
mod row;
mod spans;
mod splits;
mod stops;
mod takes;
mod zones;

pub use block::{GivenBlock, ZoneBlock};
pub use closings::ZonesFault;
pub use image::ZoneImage;
pub use laws::{blocks_lie_in_zones, bounds_in_zones_are_these, takes_come_home};
pub use looks::MOST_IN_RUN;
pub use pairs::PairCore;
pub use row::Row;
pub use spans::{MOST_ZONES, Span, may_be_zones};
pub use stops::StopRoom;
pub use zones::{ORDERS, Stay, ZoneCore, Zones};
