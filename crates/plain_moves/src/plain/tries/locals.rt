//! Steps on the local word of a core.

ghost use Rattle.std.specs.Prelude.{◌≡◌, true, false};
ghost use Rattle.frame_model.specs.Words.{IsRest};
ghost use Rattle.frame_model.specs.Steps.Conditions.{GivesUp};
ghost use Rattle.plain_moves.specs.Acts.{Acts};
ghost use Rattle.plain_moves.specs.Allowed.{MayAct};
ghost use Rattle.plain_moves.specs.PlainState.{key_by, view_by, IsOwnStep};

use crate::act::Act;
use crate::plain::PlainMoves;
use crate::plain::checks::count_at;
use frame_core::Moves;
use frame_model::Place;
use frame_words::{TREE_FRAMES, local_of};

impl PlainMoves {
    pub(crate) fn try_local_pay(&mut self, core: u32, n: u32) -> bool
        ensures own { IsOwnStep self.old self.new }
        ensures allowed { result ≡ true → MayAct (Act.LocalPay core n) self.old }
        ensures refused { result ≡ false → MayAct (Act.LocalPay core n) self.old → ⊥ }
        ensures made { result ≡ true → Acts (Act.LocalPay core n) self.old self.new }
        ensures same { result ≡ false → self.new ≡ self.old }
    {
        if core >= self.geometry.cores() {
            return false;
        }
        let seen = self.stands(Place::Local(core));
        match local_of(seen) {
            Some((tree, resting)) if n <= resting && self.pays_only(tree) => {
                self.local_pay(core, seen, n);
                true
            },
            _ => false,
        }
    }

    pub(crate) fn try_local_refund(&mut self, core: u32, n: u32) -> bool
        ensures own { IsOwnStep self.old self.new }
        ensures allowed { result ≡ true → MayAct (Act.LocalRefund core n) self.old }
        ensures refused { result ≡ false → MayAct (Act.LocalRefund core n) self.old → ⊥ }
        ensures made { result ≡ true → Acts (Act.LocalRefund core n) self.old self.new }
        ensures same { result ≡ false → self.new ≡ self.old }
    {
        if core >= self.geometry.cores() {
            return false;
        }
        let seen = self.stands(Place::Local(core));
        match local_of(seen) {
            Some((tree, _resting)) if n <= count_at(self.paid, tree) => {
                self.local_refund(core, seen, n);
                true
            }
            _ => false,
        }
    }

    pub(crate) fn try_swap_local(&mut self, core: u32, put: Option<(u32, u32)>) -> bool
        ensures own { IsOwnStep self.old self.new }
        ensures allowed { result ≡ true → MayAct (Act.SwapLocal core put) self.old }
        ensures refused { result ≡ false → MayAct (Act.SwapLocal core put) self.old → ⊥ }
        ensures made { result ≡ true → Acts (Act.SwapLocal core put) self.old self.new }
        ensures same { result ≡ false → self.new ≡ self.old }
    {
        if core >= self.geometry.cores() || !self.is_rest(put) || !self.gives_up(put) {
            return false;
        }
        self.swap_local(core, put);
        true
    }

    // The reservation is of a tree of the memory, with no more frames than a tree has.
    fn is_rest(&self, rest: Option<(u32, u32)>) -> bool
        ensures yes { result ≡ true → IsRest (key_by self.now) rest }
        ensures no { result ≡ false → IsRest (key_by self.now) rest → ⊥ }
    {
        match rest {
            None => true,
            Some((tree, n)) => tree < self.geometry.trees() && n <= TREE_FRAMES,
        }
    }

    // The own view has what is put in, and nothing is paid elsewhere; or it is idle.
    fn gives_up(&self, put: Option<(u32, u32)>) -> bool
        ensures yes { result ≡ true → GivesUp put (view_by self.now) }
        ensures no { result ≡ false → GivesUp put (view_by self.now) → ⊥ }
    {
        match put {
            None => self.is_idle(),
            Some((tree, n)) => {
                self.reserving == Some(tree)
                    && count_at(self.paid, tree) == n
                    && self.pays_only(tree)
            },
        }
    }
}
