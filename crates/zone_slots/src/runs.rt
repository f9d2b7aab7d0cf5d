//! Runs: huge frames that lie side by side in a zone, taken and given together; and looks at blocks.

ghost use Rattle.std.specs.Prelude.{◌≡◌, ◌+◌, ◌*◌, ◌^◌, ◌<◌, ◌≤◌, MatchBool, IfOk, IfErr, IfSome, IfNone};
ghost use Rattle.frame_words.specs.Geometry.{child_frames, huge_order};
ghost use Rattle.frame_zones.specs.Frames.{IsFrameIn};
ghost use Rattle.frame_zones.specs.Looks.{most_in_run, LooksAmong, MayBeginRun};
ghost use Rattle.frame_zones.specs.Uses.{KeepsAll};
ghost use Rattle.frame_zones.specs.Zones.{zone_count, first_frame_of, InEach, AreCoresOf};
ghost use Rattle.zone_slots.specs.Calls.{CountsNone, RemembersLast};
ghost use Rattle.zone_slots.specs.FrameCalls.{LeavesRest};
ghost use Rattle.zone_slots.specs.Memories.{IsFirstOf};
ghost use Rattle.zone_slots.specs.Runs.{LooksFor, IsRunCount, TakesRunInZone, TakesRunFor, IsRefusedRun, RefusesRun};
ghost use Rattle.zone_slots.specs.Parts.{AreMore};
ghost use Rattle.zone_slots.specs.Runs.{frame_in_run, HasTakenRun, EndsAtMost, MissesSlot};
ghost use Rattle.zone_slots.specs.Uses.{TakesInZone, EachLendsSame};
ghost use Rattle.zone_slots.specs.Runs.{GivesRunInZone, GivesRunFor, RefusesGiveRun, IsOneMore, IsNextGiven};

use crate::core_state::CoreState;
use crate::first_zone::FirstZone;
use crate::given_back::{GivenBack, Miss};
use crate::looks::SeenRun;
use crate::memory::Memory;
use crate::parts::Parts;
use crate::refusal::Refusal;
use frame_words::{CHILD_FRAMES, HUGE_ORDER, TakeFault};
use frame_zones::{GivenBlock, MOST_IN_RUN, ZoneCore};

/// That huge frames of a zone were seen at their slots, side by side, and then so many of them given, the first first.
#[derive(Debug, Drop)]
pub struct GivenRun {
    seen: SeenRun,
    count: u32,
}

impl GivenRun {
    // None, of those that were seen.
    fn none(seen: SeenRun) -> GivenRun
        ensures { result ≡ record { seen = seen; count = 0 } }
    {
        GivenRun { seen, count: 0 }
    }

    // The next one was given.
    fn add(&mut self, given: GivenBlock)
        requires { IsNextGiven self.old given }
        ensures { IsOneMore self.old self.new }
    {
        let _ = given;
        self.count += 1;
    }
}

impl CoreState {
    /// Are all frames of the block of `2^order` frames free that begins at this frame, by its number over all zones? It
    /// is a look, which takes and changes nothing: exact where nobody else steps. False where the memory has no such
    /// block. A frame that rests with a core is held. No memory is needed, and nobody waits.
    pub fn is_free(&mut self, frame: u32, order: u8) -> bool
        ensures rest { LeavesRest self.old self.new }
        ensures looks { LooksFor order frame result self.old self.new }
        ensures counted { CountsNone self.old self.new }
        ensures last { RemembersLast self.old self.new }
    {
        self.shared.is_free_at(&mut self.core, frame, order)
    }

    /// Takes `count` huge frames, 1 to 512, that lie side by side in one zone, and answers the first frame of the
    /// first one, by its number over all zones: a multiple of 512 times `count` rounded up to a power of two. Each
    /// is a block of order 9 for itself, whose right rests at its slot until any core gives it. No memory is needed,
    /// and nobody waits.
    pub fn take_run(&mut self, count: u32) -> Result<u32, TakeFault>
        ensures rest { LeavesRest self.old self.new }
        ensures taken { IfOk result (λ frame. TakesRunFor count frame self.old self.new) }
        ensures counted { IfOk result (λ _. CountsNone self.old self.new) }
        ensures refused { IfErr result (RefusesRun count self.old self.new) }
        ensures last { RemembersLast self.old self.new }
    {
        let parts = self
            .shared
            .take_run_at_slots(&mut self.core, &mut self.slotless, &mut self.back, count)?;
        let frame = self.shared.number_at(self.first, parts.zone, parts.frame);
        self.parts = Some(parts);
        Ok(frame)
    }

    /// Gives `count` huge frames, 1 to 512, that lie side by side in one zone from this frame on, whichever cores
    /// took them. Where one of them is not held, none is given; one that another core gives or splits meanwhile ends
    /// the give before it. No memory is needed, and nobody waits.
    pub fn give_run(&mut self, frame: u32, count: u32) -> Result<(), Refusal>
        ensures rest { LeavesRest self.old self.new }
        ensures given { IfOk result (λ _. GivesRunFor count frame self.old self.new) }
        ensures counted { CountsNone self.old self.new }
        ensures refused { IfErr result (RefusesGiveRun count frame self.old self.new) }
        ensures last { RemembersLast self.old self.new }
    {
        if !is_run_count(count) {
            return Err(Refusal::NoParts);
        }
        let Some(seen) = self.shared.run_at(self.first, self.core.home, frame, count) else {
            return Err(Refusal::NotHeld);
        };
        let run = self.shared.give_each(&mut self.core, seen);
        let given = run.count;
        self.run = Some(run);
        if given < count {
            return Err(Refusal::NotHeld);
        }
        Ok(())
    }
}

fn is_run_count(count: u32) -> bool
    ensures { MatchBool result (IsRunCount count) (¬ IsRunCount count) }
{
    0 < count && count <= MOST_IN_RUN
}

fn refusal_of(contended: bool) -> TakeFault
    ensures { MatchBool contended (result ≡ TakeFault.Contended) (result ≡ TakeFault.NoBlock) }
{
    if contended {
        return TakeFault::Contended;
    }
    TakeFault::NoBlock
}

impl Memory {
    // A look at the block.
    fn is_free_at(&self, core: &mut ZoneCore, frame: u32, order: u8) -> bool
        requires { AreCoresOf self.now.zones core.old }
        ensures core { AreCoresOf self.now.zones core.new }
        ensures looks { LooksAmong self.now.zones frame order result core.old core.new }
    {
        self.zones.is_free(core, u64::from(frame), order)
    }

    // Takes a run, and lays its huge frames down at their slots: where one looks free, in the order of frames.
    fn take_run_at_slots(
        &self,
        core: &mut ZoneCore,
        slotless: &mut u64,
        last_back: &mut Option<GivenBack>,
        count: u32,
    ) -> Result<Parts, TakeFault>
        requires { AreCoresOf self.now.zones core.old }
        ensures core { AreCoresOf self.now.zones core.new }
        ensures kept { InEach self.now.zones KeepsAll core.old core.new }
        ensures taken { IfOk result (HasTakenRun self.now.zones count core.old core.new) }
        ensures begins { IfOk result (λ p.
            MayBeginRun count (first_frame_of self.now.zones p.zone + p.frame)) }
        ensures counted { IfOk result (λ _. slotless.new ≡ slotless.old) }
        ensures refused { IfErr result (IsRefusedRun self.now.zones count core.old core.new
            slotless.old slotless.new last_back.new) }
    {
        if !is_run_count(count) {
            return Err(TakeFault::BadOrder);
        }
        let mut from = 0;
        let mut contended = false;
        while let Some(first) = self.zones.look_for_run(core, count, from) {
            let taken = self.take_run_at(core, slotless, last_back, &mut contended, first, count)?;
            if let Some(parts) = taken {
                return Ok(parts);
            }
            from = first + 1;
        }
        Err(refusal_of(contended))
    }

    // Takes the run that begins at this frame, and lays its huge frames down at their slots; or none, where one of
    // them is refused.
    fn take_run_at(
        &self,
        core: &mut ZoneCore,
        slotless: &mut u64,
        last_back: &mut Option<GivenBack>,
        contended: &mut bool,
        first: u64,
        count: u32,
    ) -> Result<Option<Parts>, TakeFault>
        requires core { AreCoresOf self.now.zones core.old }
        requires count { IsRunCount count }
        ensures core { AreCoresOf self.now.zones core.new }
        ensures kept { InEach self.now.zones KeepsAll core.old core.new }
        ensures taken { IfOk result (λ r. IfSome r (HasTakenRun self.now.zones count core.old core.new)) }
        ensures first { IfOk result (λ r. IfSome r (λ p. first_frame_of self.now.zones p.zone + p.frame ≡ first)) }
        ensures none { IfOk result (λ r. IfNone r (EachLendsSame self.now.zones core.old core.new)) }
        ensures counted { IfOk result (λ _. slotless.new ≡ slotless.old) }
        ensures missed { IfErr result (λ e. (e ≡ TakeFault.Contended)
            × MissesSlot self.now.zones count core.old core.new slotless.old slotless.new last_back.new) }
    {
        let Some((zone, local)) = self.zones.zone_of(core.home, first) else {
            return Ok(None);
        };
        let mut parts = Parts::none(zone, local, HUGE_ORDER);
        let Some(miss) = self.take_parts(core, first, count, &mut parts) else {
            return Ok(Some(parts));
        };
        let back = self.give_run_back(core, parts, miss);
        if back.misses_slot() {
            *slotless = slotless.wrapping_add(1);
            *last_back = Some(back);
            return Err(TakeFault::Contended);
        }
        *contended = *contended || back.is_lost();
        Ok(None)
    }

    // Takes these huge frames and lays them down, up to the first one that is refused. Why is it?
    fn take_parts(
        &self,
        core: &mut ZoneCore,
        first: u64,
        count: u32,
        parts: &mut Parts,
    ) -> Option<Miss>
        requires core { AreCoresOf self.now.zones core.old }
        requires first { IsFrameIn self.now.zones first parts.old.zone parts.old.frame }
        requires none { (parts.old.order ≡ huge_order) × (parts.old.count ≡ 0) }
        requires few { count ≤ most_in_run }
        ensures core { AreCoresOf self.now.zones core.new }
        ensures kept { InEach self.now.zones KeepsAll core.old core.new }
        ensures parts { AreMore parts.new.count parts.old parts.new }
        ensures few { parts.new.count ≤ count }
        ensures all { IfNone result (parts.new.count ≡ count) }
        ensures taken { TakesRunInZone self.now.zones parts.new.count core.old core.new
            parts.old.zone parts.old.frame }
        ensures end { EndsAtMost parts.new }
    {
        for i in 0..count {
            let frame = first + u64::from(CHILD_FRAMES * i);
            if let Some(miss) = self.take_part(core, frame, parts) {
                return Some(miss);
            }
        }
        None
    }

    // Takes the next huge frame and lays it down.
    fn take_part(&self, core: &mut ZoneCore, frame: u64, parts: &mut Parts) -> Option<Miss>
        requires core { AreCoresOf self.now.zones core.old }
        requires next { frame ≡ first_frame_of self.now.zones parts.old.zone
            + frame_in_run parts.old.frame parts.old.count }
        requires order { parts.old.order ≡ huge_order }
        requires few { parts.old.count < most_in_run }
        ensures core { AreCoresOf self.now.zones core.new }
        ensures kept { InEach self.now.zones KeepsAll core.old core.new }
        ensures same { IfSome result (λ _. parts.new ≡ parts.old) }
        ensures lent { IfSome result (λ _. EachLendsSame self.now.zones core.old core.new) }
        ensures laid { IfNone result (AreMore 1 parts.old parts.new) }
        ensures taken { IfNone result (TakesInZone self.now.zones huge_order core.old core.new
            parts.old.zone (frame_in_run parts.old.frame parts.old.count)) }
    {
        let held = match self.zones.take_at(core, frame, HUGE_ORDER) {
            Ok(held) => held,
            Err(TakeFault::Contended) => return Some(Miss::Lost),
            Err(_) => return Some(Miss::Held),
        };
        // a run lies in one zone
        if held.zone != parts.zone {
            self.zones.give(core, held);
            return Some(Miss::Held);
        }
        let receipt = match self.lay_huge_down(core, held) {
            Ok(receipt) => receipt,
            Err(found) => return Some(Miss::Slotless(found)),
        };
        parts.add(receipt);
        None
    }

    // The run that begins at the frame of this number, where each of its huge frames rests at its slot as this looks.
    fn run_at(&self, known: FirstZone, hint: u32, frame: u32, count: u32) -> Option<SeenRun>
        requires known { IsFirstOf self.now.zones known }
        requires few { count ≤ most_in_run }
        ensures begins { IfSome result (λ r. IsFrameIn self.now.zones frame r.zone r.frame) }
        ensures all { IfSome result (λ r. r.count ≡ count) }
    {
        let (zone, local) = self.zone_of(known, hint, frame)?;
        let mut seen = SeenRun::none(zone, local);
        for i in 0..count {
            let sight = self.look_at(zone, local + CHILD_FRAMES * i, HUGE_ORDER)?;
            seen.add(sight);
        }
        Some(seen)
    }

    // Gives the huge frames of a run that was seen, up to the first one that is not at its slot.
    fn give_each(&self, core: &mut ZoneCore, seen: SeenRun) -> GivenRun
        requires core { AreCoresOf self.now.zones core.old }
        requires zone { seen.zone < zone_count self.now.zones }
        requires fits { seen.frame + child_frames * seen.count < 2 ^ 32 }
        requires few { seen.count ≤ most_in_run }
        ensures core { AreCoresOf self.now.zones core.new }
        ensures given { GivesRunInZone self.now.zones result.count core.old core.new seen.zone seen.frame }
        ensures run { result.seen ≡ seen }
        ensures few { result.count ≤ seen.count }
    {
        let (zone, local, count) = (seen.zone, seen.frame, seen.count);
        let mut run = GivenRun::none(seen);
        for i in 0..count {
            let Ok(given) = self.give_in(core, zone, local + CHILD_FRAMES * i, HUGE_ORDER) else {
                return run;
            };
            run.add(given);
        }
        run
    }
}
