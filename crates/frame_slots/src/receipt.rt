//! Blocks are laid down at slots, and fetched.

ghost use Rattle.std.specs.Prelude.{◌≡◌, IfOk, IfSome, IfErr};
ghost use Rattle.core_frames.specs.Cores.{IsOutOf};
ghost use Rattle.frame_slots.specs.Slots.{IsSlotFor, laid_down};

use crate::slot::Slot;
use atomic_table::Perch;
use core_frames::Allocator;
use frame_core::{FrameBlock, HeldBlock};
use frame_table::Block;

const EMPTY: u64 = 0;

const FULL: u64 = 2;

/// That a block was laid down at its slot. Nothing else makes one.
#[derive(Debug, Drop)]
pub struct Receipt {
    frame: u32,
    order: u8,
}

impl Receipt {
    /// The first frame of the block.
    pub fn frame(&self) -> u32
        ensures { result ≡ self.now.frame }
    {
        self.frame
    }

    /// The block.
    pub fn block(&self) -> FrameBlock
        ensures { result ≡ laid_down self.now }
    {
        FrameBlock {
            frame: self.frame,
            order: self.order,
        }
    }
}

impl Slot {
    /// An empty slot for such a block.
    #[inline]
    pub fn of(allocator: &Allocator, held: &Block) -> Slot
        requires { IsOutOf allocator.now held.now }
        ensures { IsSlotFor allocator.now held.now.frame held.now.order result }
    {
        let _ = allocator;
        Slot {
            perch: Perch::new(&held.seat, EMPTY),
        }
    }

    /// Lays the block down at its slot. Refused only where one rests here; the block is handed back
    /// then.
    pub fn rest(&self, allocator: &Allocator, held: Block) -> Result<Receipt, Block>
        requires slot { IsSlotFor allocator.now held.frame held.order self.now }
        requires out { IsOutOf allocator.now held }
        ensures laid { IfOk result (λ r. (r.frame ≡ held.frame) × (r.order ≡ held.order)) }
        ensures refused { IfErr result (IsOutOf allocator.now) }
    {
        let _ = allocator;
        let frame = held.frame();
        let order = held.order();
        match self.perch.give(held.into_seat(), EMPTY, FULL) {
            Ok(()) => Ok(Receipt { frame, order }),
            Err(seat) => Err(Block::of(frame, order, seat)),
        }
    }

    /// Fetches the block of these numbers, whose slot this is, if it rests here.
    pub fn fetch(&self, allocator: &Allocator, frame: u32, order: u8) -> Option<Block>
        requires { IsSlotFor allocator.now frame order self.now }
        ensures out { IfSome result (IsOutOf allocator.now) }
        ensures same { IfSome result (λ b. (b.frame ≡ frame) × (b.order ≡ order)) }
    {
        let _ = allocator;
        match self.perch.take(EMPTY) {
            (_, Some(seat)) => Some(Block::of(frame, order, seat)),
            (_, None) => None,
        }
    }
}
