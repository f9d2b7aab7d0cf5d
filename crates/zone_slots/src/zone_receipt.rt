//! The receipt of a block of one zone.

use frame_slots::Receipt;

/// That a block of a zone was laid down at its slot.
#[derive(Debug, Drop)]
pub struct ZoneReceipt {
    pub(crate) zone: u32,
    pub(crate) receipt: Receipt,
}
