//! A block with its right, as C carries it.

ghost use Rattle.std.specs.Prelude.{◌≡◌, ◌∷◌, [], true, false, IfSome, IfNone};
ghost use Rattle.llfree_c.specs.Rights.{IsRightTo};

use crate::block_right::BlockRight;
use atomic_table::Seat;
use frame_core::HeldBlock;
use frame_table::{Block, Watch};
use std::mem::replace;
use zone_slots::SingleFrame;

/// Where all of its bytes are 0 it carries no block.
#[repr(C)]
#[derive(Drop)]
pub struct BlockHandle {
    pub(crate) live: bool,
    /// The number of its first frame over all zones.
    pub(crate) frame: u32,
    pub(crate) order: u8,
    pub(crate) right: BlockRight,
    pub ghost tie: { live ≡ true → IsRightTo order right.badge.views },
}

impl BlockHandle {
    ghost use Rattle.llfree_c.specs.Blocks.{Carries};

    pub(crate) fn empty() -> BlockHandle
        ensures { result.live ≡ false }
    {
        BlockHandle {
            live: false,
            frame: 0,
            order: 0,
            right: BlockRight::nothing(),
        }
    }

    /// The block of a zone, with the number of its first frame over all zones.
    pub(crate) fn of(frame: u32, held: Block) -> BlockHandle
        ensures { Carries result frame held.order held.seat }
    {
        let order = held.order();
        let badge = held.into_seat().into_badge();
        BlockHandle {
            live: true,
            frame,
            order,
            right: BlockRight::of(badge),
        }
    }

    /// From then on it carries the single frame, whose number is over all zones.
    #[inline(always)]
    pub(crate) fn fill(&mut self, held: SingleFrame)
        requires right { IsRightTo 0 (held.seat.me.0 ∷ []) }
        requires bare { held.seat.me.1 ≡ [] }
        ensures { Carries self.new held.frame 0 held.seat }
    {
        let SingleFrame { frame, seat } = held;
        self.live = true;
        self.frame = frame;
        self.order = 0;
        self.right = BlockRight::of(seat.into_badge());
    }

    /// The number, the order and the right of the block that was carried; none is from then on.
    pub(crate) fn take_out(&mut self) -> Option<(u32, u8, Seat<(), Watch>)>
        ensures some { IfSome result (λ r. Carries self.old r.0 r.1 r.2) }
        ensures empty { self.new.live ≡ false }
        ensures none { IfNone result ((self.old.live ≡ false) × (self.new ≡ self.old)) }
    {
        if !self.live {
            return None;
        }
        let BlockHandle {
            live: _,
            frame,
            order,
            right,
        } = replace(self, BlockHandle::empty());
        Some((frame, order, right.into_badge().into_seat()))
    }
}
