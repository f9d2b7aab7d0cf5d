//! The calls on an allocator for one thread, by numbers.

ghost use Rattle.std.specs.Prelude.{◌≡◌, ◌≢◌, ◌⊎◌, ◌≤◌, [], IfOk, IfErr, OnOk, OnErr, MatchBool, length};
ghost use Rattle.std.specs.List.{Contains};
ghost use Rattle.frame_model.specs.Block.{block as block_at};
ghost use Rattle.frame_model.specs.QuietTake.{QuietTake};
ghost use Rattle.core_frames.specs.PlainState.{memory_by};
ghost use Rattle.llfree_c.specs.FreeCounts.{AreFreeFrames, AreFreeChildren};
ghost use Rattle.llfree_c.specs.Images.{image_words, LeavesNumbers, HasNoImage, StaysBehind};
ghost use Rattle.llfree_c.specs.Openings.{AreMemorySizes, IsMemoryOf, IsUnopened};
ghost use Rattle.llfree_c.specs.Status.{ok, no_block, bad_order, not_held};
ghost use Rattle.llfree_c.specs.Seen.{BlockTaken, NoneWasFree, HasNoOrder, BlockGiven, BlockSplit, HasNoHalves, WasNotOut};

use crate::images::{llfree_image_words, write_numbers};
use crate::plain::Plain;
use crate::ranges::{FrameRange, pairs_in};
use crate::sizes::geometry_of;
use crate::statuses::{BAD_ORDER, BAD_RANGE, NO_BLOCK, NO_MEMORY, NO_ROOM, NOT_HELD, OK};
use core_frames::PlainAllocator;
use frame_core::HeldBlock;
use frame_words::{Fault, TakeFault};
use std::alloc::Global;
use std::mem::replace;

impl Plain {
    /// All frames are free but those of the ranges.
    pub(crate) fn open(heap: Global, frames: u32, ranges: &[FrameRange]) -> Result<Plain, u32>
        ensures memory { IfOk result (λ p. IsMemoryOf frames ranges.now (memory_by p.allocator)) }
        ensures nothing { IfOk result (λ p. (p.allocator.out ≡ []) × (p.allocator.kept ≡ [])) }
        ensures lawful { IfOk result (λ _. AreMemorySizes frames 1) }
        ensures err { IfErr result (IsUnopened frames 1 ranges.now) }
    {
        let geometry = geometry_of(frames, 1)?;
        let pairs = pairs_in(heap, ranges)?;
        match PlainAllocator::open_with(heap, geometry, &pairs) {
            Ok(allocator) => Ok(Plain { allocator, frames }),
            Err(Fault::BadRange) => Err(BAD_RANGE),
            Err(_) => Err(NO_MEMORY),
        }
    }

    pub(crate) fn take(&mut self, order: u8, frame: &mut u32) -> u32
        ensures taken { result ≡ ok → BlockTaken order frame.new self.old.allocator self.new.allocator }
        ensures none { result ≡ no_block → NoneWasFree order self.old.allocator self.new.allocator }
        ensures order { result ≡ bad_order → HasNoOrder order self.old.allocator self.new.allocator }
        ensures known { result ≤ bad_order }
        ensures refused { result ≢ ok → frame.new ≡ frame.old }
    {
        match self.allocator.take(0, order) {
            Ok(held) => {
                *frame = held.frame();
                OK
            }
            Err(TakeFault::BadOrder) => BAD_ORDER,
            Err(_) => NO_BLOCK,
        }
    }

    pub(crate) fn give(&mut self, frame: u32, order: u8) -> u32
        ensures given { result ≡ ok → BlockGiven order frame self.old.allocator self.new.allocator }
        ensures refused { result ≢ ok → (result ≡ not_held)
            × WasNotOut order frame self.old.allocator self.new.allocator }
    {
        let Some(held) = self.allocator.find_out(frame, order) else {
            return NOT_HELD;
        };
        self.allocator.give(0, held);
        OK
    }

    pub(crate) fn split(&mut self, frame: u32, order: u8) -> u32
        ensures split { result ≡ ok → BlockSplit order frame self.old.allocator self.new.allocator }
        ensures whole { result ≡ bad_order → HasNoHalves order self.old.allocator self.new.allocator }
        ensures known { (result ≡ ok) ⊎ (result ≡ bad_order) ⊎ (result ≡ not_held) }
        ensures refused { result ≡ not_held
            → WasNotOut order frame self.old.allocator self.new.allocator }
    {
        let Some(held) = self.allocator.find_out(frame, order) else {
            return NOT_HELD;
        };
        match self.allocator.split(0, held) {
            Ok(_) => OK,
            Err(_) => BAD_ORDER,
        }
    }

    pub(crate) fn free_frames(&mut self) -> u32
        ensures exact { AreFreeFrames result self.old.allocator }
        ensures same { self.new ≡ self.old }
    {
        self.allocator.free_frames()
    }

    pub(crate) fn free_huge(&mut self) -> u32
        ensures exact { AreFreeChildren result self.old.allocator }
        ensures same { self.new ≡ self.old }
    {
        self.allocator.free_huge()
    }

    pub(crate) fn is_out(&self, frame: u32, order: u8) -> bool
        ensures { MatchBool result (Contains self.now.allocator.out (block_at frame order))
            (¬ Contains self.now.allocator.out (block_at frame order)) }
    {
        self.allocator.find_out(frame, order).is_some()
    }

    /// Writes the numbers of the memory's image. A fresh memory is behind it then, which stood in its
    /// place so that a refusal can put it back.
    #[tactic(auto, using(crate::proofs::ImageNumbers::leaves_numbers))]
    pub(crate) fn leave_image(&mut self, heap: Global, numbers: &mut [u64]) -> u32
        ensures left { result ≡ ok → LeavesNumbers self.old.allocator numbers.new }
        ensures behind { result ≡ ok
            → StaysBehind (image_words self.old.allocator.geometry.frames) numbers.old numbers.new }
        ensures same { result ≢ ok → self.new.allocator ≡ self.old.allocator }
        ensures refused { result ≢ ok → (numbers.new ≡ numbers.old)
            × HasNoImage self.old.allocator (length numbers.old) result }
    {
        if numbers.len() < llfree_image_words(self.frames) {
            return NO_ROOM;
        }
        let Ok(other) = Plain::open(heap, 1, &[]) else {
            return NO_MEMORY;
        };
        let Plain { allocator, frames } = replace(self, other);
        match allocator.close(heap) {
            Ok(image) => {
                write_numbers(&image, numbers);
                OK
            }
            Err(allocator) => {
                *self = Plain { allocator, frames };
                NO_MEMORY
            }
        }
    }
}
