//! Steps on a bit word.

ghost use Rattle.std.specs.Prelude.{◌≡◌, ◌+◌, ◌/◌, ◌%◌, ◌^◌, ◌≤◌, true, IfSome, false, ℕ, None};
ghost use Rattle.frame_model.specs.Words.{run};
ghost use Rattle.frame_model.specs.View.{charged_in, paid_on};
ghost use Rattle.plain_moves.specs.Acts.{Acts};
ghost use Rattle.plain_moves.specs.Allowed.{MayAct};
ghost use Rattle.plain_moves.specs.PlainState.{key_by, view_by, IsOwnStep};

use crate::act::Act;
use crate::plain::PlainMoves;
use crate::plain::checks::count_at;
use crate::plain::moves::TREE_WORDS;
use frame_core::Moves;
use frame_model::Place;
use frame_words::{CHILD_WORDS, WORD_FRAMES, WORD_ORDER, mask as mask_of};

impl PlainMoves {
    pub(crate) fn try_claim(&mut self, word: u32, mask: u64) -> bool
        ensures own { IsOwnStep self.old self.new }
        ensures allowed { result ≡ true → MayAct (Act.Claim word mask) self.old }
        ensures refused { result ≡ false → MayAct (Act.Claim word mask) self.old → ⊥ }
        ensures made { result ≡ true → Acts (Act.Claim word mask) self.old self.new }
        ensures same { result ≡ false → self.new ≡ self.old }
    {
        let Some((_from, order)) = run_in(mask) else {
            return false;
        };
        let size = 1 << order;
        if word >= CHILD_WORDS * self.geometry.children() {
            return false;
        }
        if !self.has_paid(word, size) {
            return false;
        }
        let seen = self.stands(Place::Bits(word));
        if seen & mask != 0 {
            return false;
        }
        self.claim(word, seen, mask);
        true
    }

    // So many frames of the word's child are charged, and of its tree paid.
    fn has_paid(&self, word: u32, size: u32) -> bool
        ensures charged { result ≡ true → size ≤ charged_in (word / 8) (view_by self.now) }
        ensures paid { result ≡ true → size ≤ paid_on (word / 64) (view_by self.now) }
        ensures no { result ≡ false → size ≤ charged_in (word / 8) (view_by self.now)
            → size ≤ paid_on (word / 64) (view_by self.now) → ⊥ }
    {
        count_at(self.charged, word / CHILD_WORDS) >= size
            && count_at(self.paid, word / TREE_WORDS) >= size
    }

    pub(crate) fn try_release(&mut self, word: u32, mask: u64) -> bool
        ensures own { IsOwnStep self.old self.new }
        ensures allowed { result ≡ true → MayAct (Act.Release word mask) self.old }
        ensures refused { result ≡ false → MayAct (Act.Release word mask) self.old → ⊥ }
        ensures made { result ≡ true → Acts (Act.Release word mask) self.old self.new }
        ensures same { result ≡ false → self.new ≡ self.old }
    {
        let Some((from, order)) = run_in(mask) else {
            return false;
        };
        if word >= CHILD_WORDS * self.geometry.children() {
            return false;
        }
        if !self.charges_only(word / CHILD_WORDS) || !self.pays_only(word / TREE_WORDS) {
            return false;
        }
        if !self.has_block(WORD_FRAMES * word + from, order) {
            return false;
        }
        self.release(word, mask);
        true
    }

    pub(crate) fn try_fill_word(&mut self, word: u32) -> bool
        ensures own { IsOwnStep self.old self.new }
        ensures allowed { result ≡ true → MayAct (Act.FillWord word) self.old }
        ensures refused { result ≡ false → MayAct (Act.FillWord word) self.old → ⊥ }
        ensures made { result ≡ true → Acts (Act.FillWord word) self.old self.new }
        ensures same { result ≡ false → self.new ≡ self.old }
    {
        if word >= CHILD_WORDS * self.geometry.children() || !self.has_child(word / CHILD_WORDS) {
            return false;
        }
        self.fill_word(word);
        true
    }
}

// The first bit and the order of the run with these bits, where they are one.
fn run_in(mask: u64) -> Option<(u32, u8)>
    ensures none { result ≡ None → (from order : ℕ) → mask ≡ run from (2 ^ order)
        → order ≤ 6 → from % 2 ^ order ≡ 0 → from + 2 ^ order ≤ 64 → ⊥ }
    ensures bits { IfSome result (λ r. mask ≡ run r.0 (2 ^ r.1)) }
    ensures order { IfSome result (λ r. r.1 ≤ 6) }
    ensures aligned { IfSome result (λ r. r.0 % 2 ^ r.1 ≡ 0) }
    ensures fits { IfSome result (λ r. r.0 + 2 ^ r.1 ≤ 64) }
{
    let from = mask.trailing_zeros();
    let order = mask.count_ones().trailing_zeros() as u8;
    if order > WORD_ORDER {
        return None;
    }
    if from >= WORD_FRAMES {
        return None;
    }
    if from % (1 << order) != 0 {
        return None;
    }
    if mask_of(order, from) != mask {
        return None;
    }
    Some((from, order))
}
