//! Steps on an entry.

ghost use Rattle.std.specs.Prelude.{◌≡◌, false, true};
ghost use Rattle.frame_model.specs.Steps.{refund, May};
ghost use Rattle.plain_moves.specs.Acts.{Acts};
ghost use Rattle.plain_moves.specs.Allowed.{MayAct};
ghost use Rattle.plain_moves.specs.PlainState.{key_by, view_by, IsOwnStep};

use crate::act::Act;
use crate::plain::PlainMoves;
use crate::plain::checks::count_at;
use frame_core::Moves;
use frame_model::Place;
use frame_words::{entry_free, entry_huge, lane};

impl PlainMoves {
    pub(crate) fn try_charge(&mut self, child: u32, n: u32) -> bool
        ensures own { IsOwnStep self.old self.new }
        ensures allowed { result ≡ true → MayAct (Act.Charge child n) self.old }
        ensures refused { result ≡ false → MayAct (Act.Charge child n) self.old → ⊥ }
        ensures made { result ≡ true → Acts (Act.Charge child n) self.old self.new }
        ensures same { result ≡ false → self.new ≡ self.old }
    {
        if child >= self.geometry.children() || !self.lies_in(child) {
            return false;
        }
        let seen = self.stands(Place::Entry(child));
        let entry = lane(seen, child);
        if entry_huge(entry) || entry_free(entry) < n {
            return false;
        }
        self.charge(child, seen, n);
        true
    }

    pub(crate) fn try_refund(&mut self, child: u32, n: u32) -> bool
        ensures own { IsOwnStep self.old self.new }
        ensures allowed { result ≡ true → MayAct (Act.Refund child n) self.old }
        ensures refused { result ≡ false → MayAct (Act.Refund child n) self.old → ⊥ }
        ensures made { result ≡ true → Acts (Act.Refund child n) self.old self.new }
        ensures same { result ≡ false → self.new ≡ self.old }
    {
        if child >= self.geometry.children() || count_at(self.charged, child) < n {
            return false;
        }
        self.refund(child, n);
        true
    }
}
