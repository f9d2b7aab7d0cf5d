//! Blocks are fetched from their slots by frame and order, and laid down at them.

ghost use Rattle.std.specs.Prelude.{◌≡◌, IfSome, IfNone};
ghost use Rattle.core_frames.specs.Cores.{IsCoreOf, IsOutOf};
ghost use Rattle.core_frames.specs.Uses.{HasGiven};
ghost use Rattle.frame_slots.specs.SlotLists.{IsListOf};

use crate::receipt::Receipt;
use crate::slots::SlotList;
use core_frames::{Allocator, Core};
use frame_core::HeldBlock;
use frame_table::Block;

impl SlotList {
    /// The block of these numbers, if it rests at its slot.
    pub fn fetch(&self, allocator: &Allocator, frame: u32, order: u8) -> Option<Block>
        requires { IsListOf allocator.now self.now }
        ensures out { IfSome result (IsOutOf allocator.now) }
        ensures same { IfSome result (λ b. (b.frame ≡ frame) × (b.order ≡ order)) }
    {
        self.find(allocator, frame, order)?
            .fetch(allocator, frame, order)
    }

    /// Lays the block down at its slot. Where one rests there, or there is none, the block is given
    /// back.
    pub fn lay_down(&self, allocator: &Allocator, core: &mut Core, held: Block) -> Option<Receipt>
        requires slots { IsListOf allocator.now self.now }
        requires out { IsOutOf allocator.now held }
        requires core { IsCoreOf allocator.now core.old }
        ensures core { IsCoreOf allocator.now core.new }
        ensures rests { IfSome result (λ _. core.new ≡ core.old) }
        ensures same { IfSome result (λ r. (r.frame ≡ held.frame) × (r.order ≡ held.order)) }
        ensures given { IfNone result (HasGiven core.old core.new) }
    {
        let Some(slot) = self.find(allocator, held.frame(), held.order()) else {
            allocator.give(core, held);
            return None;
        };
        match slot.rest(allocator, held) {
            Ok(receipt) => Some(receipt),
            Err(held) => {
                allocator.give(core, held);
                None
            }
        }
    }
}
