//! The image of one zone.

use frame_core::Image;

/// A zone that was closed, as plain data.
#[derive(Drop)]
pub struct ZoneImage {
    /// Its first frame among all of the memory.
    pub first: u64,
    pub image: Image,
}
