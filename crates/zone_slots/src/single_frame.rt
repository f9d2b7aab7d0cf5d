//! The right to a single frame.

use atomic_table::Seat;
use frame_table::Watch;

/// A single frame that is out. It can't be copied, so it is given at most once; where it is dropped instead,
/// the frame stays held.
#[derive(Drop)]
pub struct SingleFrame {
    /// Its number over all zones.
    pub frame: u32,
    /// It has no bytes.
    pub seat: Seat<(), Watch>,
}
