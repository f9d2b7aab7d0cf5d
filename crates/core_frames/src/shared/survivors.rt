//! What was held before an opening, and may be handed out once.

ghost use Rattle.frame_model.specs.Block.{block};
ghost use Rattle.core_frames.specs.Left.{left_blocks, IsSurvivorsOf, Adopts};

use crate::shared::allocator::Allocator;
use crate::shared::left_frames::LeftFrames;
use frame_table::{Block, GroundSeat};
use frame_words::{Fault, Geometry, HUGE_ORDER};

/// The frames that were held before the opening and that nobody has adopted since.
#[derive(Drop)]
pub struct Survivors {
    pub(crate) seat: GroundSeat,
    pub(crate) geometry: Geometry,
    // Those of the seat's blocks.
    pub(crate) left: LeftFrames,
}

impl Survivors {
    /// Hands out a block that was held before the opening, once. Refused as `BadOrder`, else as
    /// `NotHeld` where it is no block of the memory, where a frame of it lies past the end, was not
    /// held in this form or was adopted before.
    pub fn adopt(&mut self, allocator: &Allocator, frame: u32, order: u8) -> Result<Block, Fault>
        requires { IsSurvivorsOf allocator.now self.old }
        ensures survivors { IsSurvivorsOf allocator.now self.new }
        ensures adopts { Adopts allocator.now (block frame order) result
            (left_blocks self.old) (left_blocks self.new) }
    {
        if order > HUGE_ORDER {
            return Err(Fault::BadOrder);
        }
        if !self.left.shows(self.geometry.frames(), frame, order) {
            return Err(Fault::NotHeld);
        }
        self.left.clear_block(frame, order);
        Ok(self.seat.part(&allocator.table, frame, order))
    }
}
