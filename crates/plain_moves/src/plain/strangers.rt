//! What one of the company does between two moves of the own view.

ghost use Rattle.std.specs.Prelude.{◌≡◌, true, false, ◌<◌, length};
ghost use Rattle.plain_moves.specs.Acts.{Acts, TheyAct};
ghost use Rattle.plain_moves.specs.Allowed.{MayAct, TheyMayAct};
ghost use Rattle.plain_moves.specs.PlainState.{parties_by, IsStill, IsOwnStep, IsUnmoved};

use super::PlainMoves;
use crate::act::Act;

impl PlainMoves {
    /// The stranger of this number makes this move of its own; answers whether its conditions
    /// allowed it.
    pub fn stranger(&mut self, who: usize, act: Act) -> bool
        requires { who < length (parties_by self.old) }
        ensures still { IsStill self.old self.new }
        ensures allowed { result ≡ true → TheyMayAct who act self.old }
        ensures refused { result ≡ false → TheyMayAct who act self.old → ⊥ }
        ensures made { result ≡ true → TheyAct who act self.old self.new }
        ensures same { result ≡ false → IsUnmoved self.old self.new }
    {
        self.turn(who);
        let made = self.act(act);
        self.turn(who);
        made
    }

    // The own view makes this move, where its conditions allow it.
    fn act(&mut self, act: Act) -> bool
        ensures own { IsOwnStep self.old self.new }
        ensures allowed { result ≡ true → MayAct act self.old }
        ensures refused { result ≡ false → MayAct act self.old → ⊥ }
        ensures made { result ≡ true → Acts act self.old self.new }
        ensures same { result ≡ false → self.new ≡ self.old }
    {
        match act {
            Act::Charge { child, n } => self.try_charge(child, n),
            Act::Refund { child, n } => self.try_refund(child, n),
            Act::TakeHuge { child } => self.try_take_huge(child),
            Act::TreePay { tree, n } => self.try_tree_pay(tree, n),
            Act::TreeRefund { tree, n } => self.try_tree_refund(tree, n),
            Act::Reserve { tree } => self.try_reserve(tree),
            Act::SwapLocal { core, put } => self.try_swap_local(core, put),
            Act::Unreserve { tree, n } => self.try_unreserve(tree, n),
            Act::LocalPay { core, n } => self.try_local_pay(core, n),
            Act::LocalRefund { core, n } => self.try_local_refund(core, n),
            Act::Collect { tree } => self.try_collect(tree),
            Act::Claim { word, mask } => self.try_claim(word, mask),
            Act::Release { word, mask } => self.try_release(word, mask),
            Act::GiveHuge { child } => self.try_give_huge(child),
            Act::HandOut { frame, order } => self.try_hand_out(frame, order),
            Act::HandIn { frame, order } => self.try_hand_in(frame, order),
            Act::FillWord { word } => self.try_fill_word(word),
            Act::DropFlag { child } => self.try_drop_flag(child),
        }
    }
}
