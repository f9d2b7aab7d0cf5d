//! What the own view has in flight, read where a move's conditions are tested.

ghost use Rattle.std.specs.Prelude.{◌≡◌, ◌*◌, ◌+◌, ◌/◌, ◌^◌, ◌<◌, ◌≤◌, ℕ, true, Some, slice_get, slice_index, length, ◌≢◌, false};
ghost use Rattle.frame_words.specs.Geometry.{most_children};
ghost use Rattle.frame_model.specs.Block.{block, IsBlock, smalls, wholes};
ghost use Rattle.frame_model.specs.Without.{without};
ghost use Rattle.frame_model.specs.Steps.Amounts.{Leaves};
ghost use Rattle.frame_model.specs.Steps.Conditions.{IsUnfilled};
ghost use Rattle.frame_core.specs.Moves.{place_of, IsPlace};
ghost use Rattle.frame_model.specs.View.{IsAmount, IsIdle, LiesIn, NoneBut, count_in, names};
ghost use Rattle.plain_moves.specs.PlainState.{key_by, words_by, view_by};

use super::PlainMoves;
use super::contents::{all_begin_in, all_of, count_smalls, count_wholes, none_of};
use super::moves::{number_of, plain_word};
use frame_model::{Amount, Place};
use frame_words::{HUGE_ORDER, child_of};

impl PlainMoves {
    /// The word as it stands.
    pub fn stands(&self, place: Place) -> u64
        requires { IsPlace (key_by self.now) place }
        ensures value { slice_index (words_by self.now)
            (place_of (key_by self.now) place) ≡ result }
        ensures found { slice_get (words_by self.now)
            (place_of (key_by self.now) place) ≡ Some result }
    {
        plain_word(&self.words, self.geometry, place)
    }

    /// The number of the word among all words.
    pub fn number_at(&self, place: Place) -> usize
        requires { IsPlace (key_by self.now) place }
        ensures number { result ≡ place_of (key_by self.now) place }
        ensures inside { result < length (words_by self.now) }
    {
        number_of(self.geometry, place)
    }

    // Nothing is charged or in flight but in this child.
    pub(crate) fn lies_in(&self, child: u32) -> bool
        ensures yes { result ≡ true → LiesIn (view_by self.now) child }
        ensures no { result ≡ false → LiesIn (view_by self.now) child → ⊥ }
    {
        self.charges_only(child) && all_begin_in(&self.own, child)
    }

    // Nothing is charged but in this child.
    pub(crate) fn charges_only(&self, child: u32) -> bool
        ensures yes { result ≡ true → NoneBut child self.now.charged }
        ensures no { result ≡ false → NoneBut child self.now.charged → ⊥ }
    {
        is_none_but(self.charged, child)
    }

    // Nothing is paid but on this tree.
    pub(crate) fn pays_only(&self, tree: u32) -> bool
        ensures yes { result ≡ true → NoneBut tree self.now.paid }
        ensures no { result ≡ false → NoneBut tree self.now.paid → ⊥ }
    {
        is_none_but(self.paid, tree)
    }

    // The block can leave what is in flight.
    pub(crate) fn has_block(&self, frame: u32, order: u8) -> bool
        requires { IsBlock (key_by self.now) (block frame order) }
        ensures yes { result ≡ true → Leaves (key_by self.now) self.now.own.items
            (block frame order) (without (block frame order) self.now.own.items) }
        ensures no { result ≡ false → Leaves (key_by self.now) self.now.own.items
            (block frame order) (without (block frame order) self.now.own.items) → ⊥ }
    {
        if order == HUGE_ORDER {
            return self.has_child(child_of(frame));
        }
        self.has_frames(frame, 1 << order)
    }

    // Each of these frames is in one block below order 9.
    fn has_frames(&self, frame: u32, count: u32) -> bool
        requires inside { frame + count ≤ 2 ^ 21 }
        ensures yes { result ≡ true → (x : ℕ) → frame ≤ x → x < frame + count
            → smalls x self.now.own.items ≡ 1 }
        ensures no { result ≡ false → (x : ℕ) × ((frame ≤ x) × ((x < frame + count)
            × (smalls x self.now.own.items ≢ 1))) }
    {
        for x in frame..frame + count {
            if count_smalls(&self.own, x) != 1 {
                return false;
            }
        }
        true
    }

    // The child is in flight as a huge frame.
    pub(crate) fn has_child(&self, child: u32) -> bool
        requires { child < self.now.geometry.children }
        ensures some { result ≡ true → 0 < wholes child self.now.own.items }
        ensures none { result ≡ false → wholes child self.now.own.items ≡ 0 }
        ensures yes { result ≡ true → Leaves (key_by self.now) self.now.own.items
            (block (512 * child) 9) (without (block (512 * child) 9) self.now.own.items) }
        ensures no { result ≡ false → Leaves (key_by self.now) self.now.own.items
            (block (512 * child) 9) (without (block (512 * child) 9) self.now.own.items) → ⊥ }
    {
        count_wholes(&self.own, child) > 0
    }

    // No word of the child is filled.
    pub(crate) fn is_unfilled(&self, child: u32) -> bool
        ensures yes { result ≡ true → IsUnfilled child (view_by self.now) }
        ensures no { result ≡ false → IsUnfilled child (view_by self.now) → ⊥ }
    {
        none_of(&self.filled, child)
    }

    // The block is no huge frame with a filled word.
    pub(crate) fn is_whole(&self, frame: u32, order: u8) -> bool
        ensures yes { result ≡ true → order ≡ 9 → IsUnfilled (frame / 512) (view_by self.now) }
        ensures no { result ≡ false
            → (order ≡ 9 → IsUnfilled (frame / 512) (view_by self.now)) → ⊥ }
    {
        order != HUGE_ORDER || self.is_unfilled(child_of(frame))
    }

    // All words of the child are filled.
    pub(crate) fn is_filled(&self, child: u32) -> bool
        requires { child < most_children }
        ensures yes { result ≡ true → (word : ℕ) → word / 8 ≡ child
            → names word self.now.filled.items ≡ 1 }
        ensures no { result ≡ false → ((word : ℕ) → word / 8 ≡ child
            → names word self.now.filled.items ≡ 1) → ⊥ }
    {
        all_of(&self.filled, child)
    }

    // Nothing is in flight.
    pub(crate) fn is_idle(&self) -> bool
        ensures yes { result ≡ true → IsIdle (view_by self.now) }
        ensures no { result ≡ false → IsIdle (view_by self.now) → ⊥ }
    {
        self.paid.is_none()
            && self.charged.is_none()
            && self.reserving.is_none()
            && self.own.is_empty()
    }
}

// Nothing is counted but in this place.
fn is_none_but(amount: Option<Amount>, place: u32) -> bool
    ensures yes { result ≡ true → NoneBut place amount }
    ensures no { result ≡ false → IsAmount amount → NoneBut place amount → ⊥ }
{
    match amount {
        None => true,
        Some(some) => some.place == place,
    }
}

// So much is counted in this place.
#[tactic(auto, unfolding(frame_model::specs::View::count_in))]
pub(crate) fn count_at(amount: Option<Amount>, place: u32) -> u32
    ensures { result ≡ count_in place amount }
{
    match amount {
        Some(some) if some.place == place => some.count,
        _ => 0,
    }
}
