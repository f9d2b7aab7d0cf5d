//! Blocks that are handed out and taken in.

ghost use Rattle.std.specs.Prelude.{◌≡◌, ◌≤◌, true, false};
ghost use Rattle.frame_model.specs.Block.{block, IsBlock};
ghost use Rattle.plain_moves.specs.Plain.{IsOutIn};
ghost use Rattle.plain_moves.specs.Acts.{Acts};
ghost use Rattle.plain_moves.specs.Allowed.{MayAct};
ghost use Rattle.plain_moves.specs.PlainState.{key_by, view_by, IsOwnStep};

use crate::act::Act;
use crate::plain::PlainMoves;
use frame_core::Moves;
use frame_model::PlainBlock;
use frame_words::{CHILD_FRAMES, HUGE_ORDER, child_of};

impl PlainMoves {
    pub(crate) fn try_hand_out(&mut self, frame: u32, order: u8) -> bool
        ensures own { IsOwnStep self.old self.new }
        ensures allowed { result ≡ true → MayAct (Act.HandOut frame order) self.old }
        ensures refused { result ≡ false → MayAct (Act.HandOut frame order) self.old → ⊥ }
        ensures made { result ≡ true → Acts (Act.HandOut frame order) self.old self.new }
        ensures same { result ≡ false → self.new ≡ self.old }
    {
        if !self.is_block(frame, order)
            || !self.has_block(frame, order)
            || !self.is_whole(frame, order)
        {
            return false;
        }
        self.hand_out(frame, order);
        true
    }

    pub(crate) fn try_hand_in(&mut self, frame: u32, order: u8) -> bool
        ensures own { IsOwnStep self.old self.new }
        ensures allowed { result ≡ true → MayAct (Act.HandIn frame order) self.old }
        ensures refused { result ≡ false → MayAct (Act.HandIn frame order) self.old → ⊥ }
        ensures made { result ≡ true → Acts (Act.HandIn frame order) self.old self.new }
        ensures same { result ≡ false → self.new ≡ self.old }
    {
        if !self.is_out(frame, order) {
            return false;
        }
        if !self.lies_in(child_of(frame)) {
            return false;
        }
        self.hand_in(PlainBlock::of(frame, order));
        true
    }

    // The block is one of the memory.
    fn is_block(&self, frame: u32, order: u8) -> bool
        ensures yes { result ≡ true → IsBlock (key_by self.now) (block frame order) }
        ensures no { result ≡ false → IsBlock (key_by self.now) (block frame order) → ⊥ }
    {
        if order > HUGE_ORDER || frame >= CHILD_FRAMES * self.geometry.children() {
            return false;
        }
        let size = 1 << order;
        frame % size == 0 && frame + size <= CHILD_FRAMES * self.geometry.children()
    }

    // The block was handed out on this side.
    fn is_out(&self, frame: u32, order: u8) -> bool
        ensures yes { result ≡ true → IsOutIn self.now.outs.items (block frame order) }
        ensures no { result ≡ false → order ≤ 9
            → IsOutIn self.now.outs.items (block frame order) → ⊥ }
    {
        let at = frame as usize;
        order <= HUGE_ORDER && at < self.outs.len() && self.outs[at] == order + 1
    }
}
