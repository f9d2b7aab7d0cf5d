//! What was held before the opening of a table.

ghost use Rattle.std.specs.Prelude.{◌≡◌};
ghost use Rattle.frame_model.specs.Block.{block};
ghost use Rattle.frame_model.specs.Seats.{left_by};
ghost use Rattle.frame_model.specs.Steps.{next};
ghost use Rattle.frame_table.specs.Openings.{ground_view, adopt_block, IsGround, IsLeft};
ghost use Rattle.frame_table.specs.Seats.{key_at, block_in, IsOut};

use crate::block::Block;
use crate::rule::Watch;
use crate::steps::cut_seat;
use crate::table::FrameTable;
use atomic_table::Seat;
use frame_core::FrameBlock;
use std::marker::Brand;

/// What was held before the opening. It has no bytes.
#[derive(Drop)]
pub struct GroundSeat {
    pub(crate) seat: Seat<(), Watch>,
}

impl GroundSeat {
    /// Parts off a block that was held before the opening.
    pub fn part(&mut self, table: &FrameTable, frame: u32, order: u8) -> Block
        requires seat { IsGround table.now self.old }
        requires block { IsLeft (key_at table.now) (ground_view self.old).own (block frame order) }
        ensures seat { IsGround table.now self.new }
        ensures view { ground_view self.new
            ≡ left_by next (adopt_block (block frame order)) (ground_view self.old) }
        ensures block { (block_in result ≡ block frame order) × IsOut table.now result }
    {
        let seat = cut_seat::<Brand>(table, &mut self.seat, FrameBlock { frame, order });
        Block::of(frame, order, seat)
    }
}
