//! Steps on a child as a whole.

ghost use Rattle.std.specs.Prelude.{◌≡◌, true, false};
ghost use Rattle.plain_moves.specs.Acts.{Acts};
ghost use Rattle.plain_moves.specs.Allowed.{MayAct};
ghost use Rattle.plain_moves.specs.PlainState.{key_by, view_by, IsOwnStep};

use crate::act::Act;
use crate::plain::PlainMoves;
use crate::plain::checks::count_at;
use frame_core::Moves;
use frame_model::Place;
use frame_words::{CHILD_FRAMES, TREE_CHILDREN, lane};

impl PlainMoves {
    pub(crate) fn try_take_huge(&mut self, child: u32) -> bool
        ensures own { IsOwnStep self.old self.new }
        ensures allowed { result ≡ true → MayAct (Act.TakeHuge child) self.old }
        ensures refused { result ≡ false → MayAct (Act.TakeHuge child) self.old → ⊥ }
        ensures made { result ≡ true → Acts (Act.TakeHuge child) self.old self.new }
        ensures same { result ≡ false → self.new ≡ self.old }
    {
        if child >= self.geometry.children() || !self.lies_in(child) {
            return false;
        }
        let seen = self.stands(Place::Entry(child));
        if lane(seen, child) != u64::from(CHILD_FRAMES) {
            return false;
        }
        if count_at(self.paid, child / TREE_CHILDREN) < CHILD_FRAMES {
            return false;
        }
        self.take_huge(child, seen);
        true
    }

    pub(crate) fn try_give_huge(&mut self, child: u32) -> bool
        ensures own { IsOwnStep self.old self.new }
        ensures allowed { result ≡ true → MayAct (Act.GiveHuge child) self.old }
        ensures refused { result ≡ false → MayAct (Act.GiveHuge child) self.old → ⊥ }
        ensures made { result ≡ true → Acts (Act.GiveHuge child) self.old self.new }
        ensures same { result ≡ false → self.new ≡ self.old }
    {
        if child >= self.geometry.children() || !self.pays_only(child / TREE_CHILDREN) {
            return false;
        }
        if !self.has_child(child) || !self.is_unfilled(child) {
            return false;
        }
        self.give_huge(child);
        true
    }

    pub(crate) fn try_drop_flag(&mut self, child: u32) -> bool
        ensures own { IsOwnStep self.old self.new }
        ensures allowed { result ≡ true → MayAct (Act.DropFlag child) self.old }
        ensures refused { result ≡ false → MayAct (Act.DropFlag child) self.old → ⊥ }
        ensures made { result ≡ true → Acts (Act.DropFlag child) self.old self.new }
        ensures same { result ≡ false → self.new ≡ self.old }
    {
        if child >= self.geometry.children() {
            return false;
        }
        if !self.has_child(child) || !self.is_filled(child) {
            return false;
        }
        self.drop_flag(child);
        true
    }
}
