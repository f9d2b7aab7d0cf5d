//! What happens just before a move, as the script says.

ghost use Rattle.std.specs.Prelude.{◌≡◌, ◌<◌, ◌↔◌, Some, true, false, length, slice_get};
ghost use Rattle.plain_moves.specs.Acts.{TheyAct};
ghost use Rattle.plain_moves.specs.PlainState.{IsStill, IsUnmoved};
ghost use Rattle.script_moves.specs.Script.{HasCue, LosesAt};
ghost use Rattle.script_moves.specs.ScriptState.{
  at_by,
  one_skipped,
  CueHappens,
  IsButPlain,
  IsReady,
  IsUntold,
  LosesBy,
  Meets,
  MeetsFirst,
  ShowsSame,
  StrangerMay,
};

use super::stage::Stage;
use super::{Cue, What};
use plain_moves::{Act, STRANGERS};

impl Stage {
    // Makes all cues of the next move, in their order; answers whether it is to be lost.
    pub(crate) fn prompt(&mut self, is_exchange: bool) -> bool
        ensures ready { IsReady self.old self.new }
        ensures met { MeetsFirst self.old.cues.items is_exchange (length self.old.cues.items)
            self.old self.new }
        ensures loses { (result ≡ true)
            ↔ ((is_exchange ≡ true) × LosesAt (at_by self.old) self.old.cues.items) }
    {
        let mut loses = false;
        for i in 0..self.cues.len() {
            let cue = self.cue_at(i);
            if self.meet(cue, is_exchange) {
                loses = true;
            }
        }
        loses
    }

    // The cue at this place of the script.
    fn cue_at(&self, place: usize) -> Cue
        requires { place < length self.now.cues.items }
        ensures { slice_get self.now.cues.items place ≡ Some result }
    {
        self.cues[place]
    }

    // The cue happens where it is for the next move; answers whether it loses it.
    fn meet(&mut self, cue: Cue, is_exchange: bool) -> bool
        requires { HasCue self.old.cues.items cue }
        ensures met { Meets cue is_exchange self.old self.new }
        ensures loses { (result ≡ true) ↔ LosesBy cue is_exchange self.old }
    {
        if u64::from(cue.at) != self.at() {
            return false;
        }
        self.play(cue, is_exchange)
    }

    // How many moves the caller has made since the script began.
    fn at(&self) -> u64
        ensures { result ≡ at_by self.now }
    {
        self.plain.moves().saturating_sub(self.begun)
    }

    // One cue happens; answers whether it loses the move.
    fn play(&mut self, cue: Cue, is_exchange: bool) -> bool
        requires is_cue { HasCue self.old.cues.items cue }
        requires at { cue.at ≡ at_by self.old }
        ensures happens { CueHappens cue is_exchange self.old self.new }
        ensures loses { (result ≡ true) ↔ ((is_exchange ≡ true) × (cue.what ≡ What.Lose)) }
    {
        match cue.what {
            What::Lose => {
                if !is_exchange {
                    self.skip();
                }
                is_exchange
            }
            What::Stranger { who, act } => {
                if !self.acts(who, act) {
                    self.skip();
                }
                false
            }
            What::Stop => {
                self.plain.copy_to(&mut self.stop);
                self.has_stopped = true;
                false
            }
        }
    }

    // The stranger makes the act, where it may.
    fn acts(&mut self, who: u32, act: Act) -> bool
        ensures still { IsStill self.old.plain self.new.plain }
        ensures only { IsButPlain self.old self.new }
        ensures allowed { result ≡ true → StrangerMay who act self.old.plain }
        ensures refused { result ≡ false → StrangerMay who act self.old.plain → ⊥ }
        ensures made { result ≡ true → TheyAct who act self.old.plain self.new.plain }
        ensures same { result ≡ false → IsUnmoved self.old.plain self.new.plain }
    {
        who < STRANGERS && self.plain.stranger(who as usize, act)
    }

    // The cue is counted as not made.
    fn skip(&mut self)
        ensures plain { self.new.plain ≡ self.old.plain }
        ensures untold { IsUntold self.old self.new }
        ensures skipped { self.new.skipped ≡ one_skipped self.old.skipped }
        ensures shows { ShowsSame self.old self.new }
    {
        self.skipped = self.skipped.saturating_add(1);
    }
}
