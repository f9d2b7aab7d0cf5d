//! Takes and gives of single frames, of which some rest with a core.

ghost use Rattle.std.specs.Prelude.{◌≡◌, ◌+◌, ◌-◌, ◌<◌, ◌≤◌, ◌∷◌, ◌++◌, [], drop, length, IfOk, IfErr};
ghost use Rattle.zone_slots.specs.Calls.{zones_of, SharesOne, CountsNone, RemembersLast};
ghost use Rattle.zone_slots.specs.Resting.{most_resting, refill_frames, flush_frames, BringsNone};
ghost use Rattle.zone_slots.specs.FrameCalls.{resting_in, next_batch, IsSingleFor, LendsOneLess, LendsAsManyInEach};
ghost use Rattle.zone_slots.specs.FrameCalls.{TakesSingle, TakesLastFrame, RestsLast, RefusesOne, RefusesSingle};

use crate::core_state::CoreState;
use crate::frame_list::MOST_RESTING;
use crate::single_frame::SingleFrame;
use frame_words::TakeFault;

impl CoreState {
    /// Takes a single frame: the one that came to rest last, with no step of the allocator. Where none rests, up
    /// to 16 of the core's own tree come to rest first, or to 8 where the last ones lay apart; where that has none,
    /// one as `take_block` takes it.
    #[inline(always)]
    pub fn take_frame(&mut self) -> Result<SingleFrame, TakeFault>
        ensures shared { SharesOne self.old self.new }
        ensures taken { IfOk result (TakesSingle self.old self.new) }
        ensures refused { IfErr result (RefusesSingle self.old self.new) }
        ensures hits { 0 < length (resting_in self.old) → TakesLastFrame result self.old self.new }
        ensures few { resting_in self.old ≡ [] → length (resting_in self.new) < next_batch self.old }
        ensures counted { CountsNone self.old self.new }
        ensures last { RemembersLast self.old self.new }
    {
        let Some(frame) = self.rest.pop() else {
            return self.take_anew();
        };
        Ok(frame)
    }

    // Where the own tree had none, one is taken where one is found: a search does not pay for a batch, too.
    #[inline(never)]
    fn take_anew(&mut self) -> Result<SingleFrame, TakeFault>
        requires { resting_in self.old ≡ [] }
        ensures shared { SharesOne self.old self.new }
        ensures taken { IfOk result (TakesSingle self.old self.new) }
        ensures refused { IfErr result (RefusesSingle self.old self.new) }
        ensures few { length (resting_in self.new) < next_batch self.old }
        ensures counted { CountsNone self.old self.new }
        ensures last { RemembersLast self.old self.new }
    {
        let most = self.rest.next;
        self.refill(most);
        self.take_one()
    }

    // Up to so many single frames of the own tree come to rest.
    fn refill(&mut self, most: u32)
        requires empty { resting_in self.old ≡ [] }
        requires few { most ≤ refill_frames }
        ensures shared { SharesOne self.old self.new }
        ensures lent { LendsAsManyInEach self.old self.new }
        ensures none { resting_in self.new ≡ []
            → BringsNone (zones_of self.old) most self.old.core self.new.core }
        ensures few { length (resting_in self.new) ≤ most }
        ensures counted { CountsNone self.old self.new }
        ensures last { RemembersLast self.old self.new }
    {
        self.shared
            .refill(self.first, &mut self.core, &mut self.rest, most);
    }

    // The frame that came to rest last; where none rests, one as `take_block` takes it.
    #[inline(always)]
    fn take_one(&mut self) -> Result<SingleFrame, TakeFault>
        ensures shared { SharesOne self.old self.new }
        ensures taken { IfOk result (TakesSingle self.old self.new) }
        ensures refused { IfErr result (RefusesOne self.old self.new) }
        ensures rests { length (resting_in self.new) ≡ length (resting_in self.old) - 1 }
        ensures counted { CountsNone self.old self.new }
        ensures last { RemembersLast self.old self.new }
    {
        match self.rest.pop() {
            Some(frame) => Ok(frame),
            None => self.shared.take_single(self.first, &mut self.core),
        }
    }

    /// Gives a single frame back, whichever core took it: it comes to rest. Where 128 rest, the 8 that came
    /// first go back before. It always succeeds.
    #[inline(always)]
    pub fn give_frame(&mut self, frame: SingleFrame)
        requires { IsSingleFor self.old frame }
        ensures shared { SharesOne self.old self.new }
        ensures lent { LendsOneLess frame.frame self.old self.new }
        ensures rests { length (resting_in self.old) < most_resting → RestsLast frame self.old self.new }
        ensures full { length (resting_in self.old) ≡ most_resting
            → resting_in self.new ≡ drop flush_frames (resting_in self.old) ++ frame ∷ [] }
        ensures counted { CountsNone self.old self.new }
        ensures last { RemembersLast self.old self.new }
    {
        if self.rest.len() < MOST_RESTING {
            self.lay(frame);
            return;
        }
        self.lay_anew(frame);
    }

    // The frame rests last, once there is room for it.
    #[inline(never)]
    fn lay_anew(&mut self, frame: SingleFrame)
        requires single { IsSingleFor self.old frame }
        requires full { length (resting_in self.old) ≡ most_resting }
        ensures shared { SharesOne self.old self.new }
        ensures lent { LendsOneLess frame.frame self.old self.new }
        ensures rest { resting_in self.new ≡ drop flush_frames (resting_in self.old) ++ frame ∷ [] }
        ensures counted { CountsNone self.old self.new }
        ensures last { RemembersLast self.old self.new }
    {
        self.flush();
        self.lay(frame);
    }

    // The frame rests last.
    #[inline(always)]
    fn lay(&mut self, frame: SingleFrame)
        requires single { IsSingleFor self.old frame }
        requires room { length (resting_in self.old) < most_resting }
        ensures shared { SharesOne self.old self.new }
        ensures lent { LendsOneLess frame.frame self.old self.new }
        ensures rests { RestsLast frame self.old self.new }
        ensures counted { CountsNone self.old self.new }
        ensures last { RemembersLast self.old self.new }
    {
        self.rest.push(frame);
    }

    // Gives the 8 frames back that came first, those that make up a block as one.
    fn flush(&mut self)
        requires { length (resting_in self.old) ≡ most_resting }
        ensures shared { SharesOne self.old self.new }
        ensures lent { LendsAsManyInEach self.old self.new }
        ensures rest { resting_in self.new ≡ drop flush_frames (resting_in self.old) }
        ensures less { length (resting_in self.new) + flush_frames ≡ most_resting }
        ensures counted { CountsNone self.old self.new }
        ensures last { RemembersLast self.old self.new }
    {
        self.rest.turn();
        self.shared
            .give_together(self.first, &mut self.core, &mut self.rest);
    }

    /// Gives all frames back that rest with the core.
    pub fn drain(&mut self)
        ensures shared { SharesOne self.old self.new }
        ensures empty { resting_in self.new ≡ [] }
        ensures lent { LendsAsManyInEach self.old self.new }
        ensures counted { CountsNone self.old self.new }
        ensures last { RemembersLast self.old self.new }
    {
        let count = self.rest.len();
        self.shared
            .give_last(self.first, &mut self.core, &mut self.rest, count);
    }

    /// How many frames rest with the core, at most 128. They count as held.
    pub fn resting(&self) -> u32
        ensures { result ≡ length (resting_in self.now) }
    {
        self.rest.len() as u32
    }
}
