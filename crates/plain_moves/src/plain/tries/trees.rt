//! Steps on the word of a tree.

ghost use Rattle.std.specs.Prelude.{◌≡◌, false, slice_index, true};
ghost use Rattle.frame_model.specs.Steps.{reserve, tree_refund, unreserve, May};
ghost use Rattle.frame_model.specs.Words.{tree_place};
ghost use Rattle.plain_moves.specs.Acts.{Acts};
ghost use Rattle.plain_moves.specs.Allowed.{MayAct};
ghost use Rattle.plain_moves.specs.PlainState.{key_by, view_by, IsOwnStep};

use crate::act::Act;
use crate::plain::PlainMoves;
use crate::plain::checks::count_at;
use frame_core::Moves;
use frame_model::Place;
use frame_words::{tree_free, tree_reserved};

impl PlainMoves {
    pub(crate) fn try_tree_pay(&mut self, tree: u32, n: u32) -> bool
        ensures own { IsOwnStep self.old self.new }
        ensures allowed { result ≡ true → MayAct (Act.TreePay tree n) self.old }
        ensures refused { result ≡ false → MayAct (Act.TreePay tree n) self.old → ⊥ }
        ensures made { result ≡ true → Acts (Act.TreePay tree n) self.old self.new }
        ensures same { result ≡ false → self.new ≡ self.old }
    {
        if tree >= self.geometry.trees() || !self.pays_only(tree) {
            return false;
        }
        let seen = self.stands(Place::Tree(tree));
        if tree_free(seen) < n {
            return false;
        }
        self.tree_pay(tree, seen, n);
        true
    }

    pub(crate) fn try_tree_refund(&mut self, tree: u32, n: u32) -> bool
        ensures own { IsOwnStep self.old self.new }
        ensures allowed { result ≡ true → MayAct (Act.TreeRefund tree n) self.old }
        ensures refused { result ≡ false → MayAct (Act.TreeRefund tree n) self.old → ⊥ }
        ensures made { result ≡ true → Acts (Act.TreeRefund tree n) self.old self.new }
        ensures same { result ≡ false → self.new ≡ self.old }
    {
        if tree >= self.geometry.trees() || count_at(self.paid, tree) < n {
            return false;
        }
        self.tree_refund(tree, n);
        true
    }

    pub(crate) fn try_reserve(&mut self, tree: u32) -> bool
        ensures own { IsOwnStep self.old self.new }
        ensures allowed { result ≡ true → MayAct (Act.Reserve tree) self.old }
        ensures refused { result ≡ false → MayAct (Act.Reserve tree) self.old → ⊥ }
        ensures made { result ≡ true → Acts (Act.Reserve tree) self.old self.new }
        ensures same { result ≡ false → self.new ≡ self.old }
    {
        if tree >= self.geometry.trees() || self.paid.is_some() || self.reserving.is_some() {
            return false;
        }
        let seen = self.stands(Place::Tree(tree));
        if tree_reserved(seen) {
            return false;
        }
        self.reserve(tree, seen);
        true
    }

    pub(crate) fn try_unreserve(&mut self, tree: u32, n: u32) -> bool
        ensures own { IsOwnStep self.old self.new }
        ensures allowed { result ≡ true → MayAct (Act.Unreserve tree n) self.old }
        ensures refused { result ≡ false → MayAct (Act.Unreserve tree n) self.old → ⊥ }
        ensures made { result ≡ true → Acts (Act.Unreserve tree n) self.old self.new }
        ensures same { result ≡ false → self.new ≡ self.old }
    {
        if tree >= self.geometry.trees() || count_at(self.paid, tree) < n {
            return false;
        }
        if self.reserving != Some(tree) {
            return false;
        }
        self.unreserve(tree, n);
        true
    }

    pub(crate) fn try_collect(&mut self, tree: u32) -> bool
        ensures own { IsOwnStep self.old self.new }
        ensures allowed { result ≡ true → MayAct (Act.Collect tree) self.old }
        ensures refused { result ≡ false → MayAct (Act.Collect tree) self.old → ⊥ }
        ensures made { result ≡ true → Acts (Act.Collect tree) self.old self.new }
        ensures same { result ≡ false → self.new ≡ self.old }
    {
        if tree >= self.geometry.trees() || !self.pays_only(tree) {
            return false;
        }
        let seen = self.stands(Place::Tree(tree));
        self.collect(tree, seen);
        true
    }
}
