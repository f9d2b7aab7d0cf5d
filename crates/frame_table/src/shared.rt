//! The moves of a core on the shared table, each one atomic step.

mod kept_blocks;
mod moves;

ghost use Rattle.frame_table.specs.Seats.{Sits};

use crate::seats::CoreSeat;
use crate::table::FrameTable;

/// The seat of a core, as it steps on its table.
#[derive(Drop)]
pub struct SharedMoves<'a> {
    pub(crate) table: &'a FrameTable,
    pub(crate) seat: &'a mut CoreSeat,
    pub(crate) missed: bool,
    pub ghost sits: { Sits table.now seat.now },
}
