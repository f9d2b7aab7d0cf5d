//! The seat of a core.

use crate::rule::Watch;
use atomic_table::Seat;

/// What a core steps through. It has no bytes.
#[derive(Drop)]
pub struct CoreSeat {
    pub(crate) seat: Seat<(), Watch>,
}
