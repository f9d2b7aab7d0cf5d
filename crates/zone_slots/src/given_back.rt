//! Huge frames of a run that go back, where another one of it was refused.

ghost use Rattle.std.specs.Prelude.{◌≡◌, ◌+◌, ◌<◌, ◌≤◌, ◌↔◌, IsTrue, IsFalse, IfOk, IfErr};
ghost use Rattle.frame_words.specs.Geometry.{huge_order};
ghost use Rattle.frame_zones.specs.Looks.{most_in_run};
ghost use Rattle.frame_zones.specs.Uses.{GivesIn, KeepsAll};
ghost use Rattle.frame_zones.specs.Zones.{zone_count, InEach, AreCoresOf, IsOutOfItsZone};
ghost use Rattle.zone_slots.specs.GivenBack.{IsNextBack, IsOneMoreBack};
ghost use Rattle.zone_slots.specs.Runs.{LendsFewer, EndsAtMost, WasSlotless, HasMissedSlot};
ghost use Rattle.zone_slots.specs.Uses.{IsReceiptOf};

use crate::memory::Memory;
use crate::parts::Parts;
use crate::zone_receipt::ZoneReceipt;
use frame_words::{CHILD_FRAMES, HUGE_ORDER};
use frame_zones::{GivenBlock, ZoneBlock, ZoneCore};

/// That a huge frame, looked for at its slot to be given back, did not rest there. Nothing else makes one.
#[derive(Debug, Drop)]
pub struct Missed {
    zone: u32,
    // Counted from the zone's first frame.
    frame: u32,
}

/// That a huge frame that was taken found no slot. Nothing else makes one.
#[derive(Debug, Drop)]
pub struct FoundNone {
    made: (),
}

/// Why a place was no run after all.
#[derive(Debug, Drop)]
pub enum Miss {
    /// A huge frame of it was held.
    Held,
    /// An exchange was lost.
    Lost,
    /// A huge frame of it found no slot.
    Slotless(FoundNone),
}

impl Miss {
    fn is_slotless(&self) -> bool
        ensures { IsTrue result ↔ WasSlotless self.now }
    {
        match self {
            Miss::Slotless(_) => true,
            _ => false,
        }
    }
}

/// That huge frames that were laid down side by side were looked for at their slots, each once: so many of them were
/// given back, and so many did not rest there any more.
#[derive(Debug, Drop)]
pub struct GivenBack {
    parts: Parts,
    given: u16,
    missed: u16,
    // Why they were no run.
    miss: Miss,
}

impl GivenBack {
    // None of them was looked for.
    fn none(parts: Parts, miss: Miss) -> GivenBack
        ensures { result ≡ record { parts = parts; given = 0; missed = 0; miss = miss } }
    {
        GivenBack {
            parts,
            given: 0,
            missed: 0,
            miss,
        }
    }

    // The next one was looked for.
    fn add(&mut self, answer: Result<GivenBlock, Missed>)
        requires { IsNextBack self.old answer }
        ensures { IsOneMoreBack self.old answer self.new }
    {
        match answer {
            Ok(_given) => self.given += 1,
            Err(_missed) => self.missed += 1,
        }
    }

    /// Did one of them not rest at its slot any more, or did another one find none?
    pub(crate) fn misses_slot(&self) -> bool
        ensures some { IsTrue result → HasMissedSlot self.now }
        ensures none { IsFalse result → self.now.missed ≡ 0 }
    {
        if self.missed > 0 {
            return true;
        }
        self.miss.is_slotless()
    }

    /// Was an exchange lost?
    pub(crate) fn is_lost(&self) -> bool {
        match self.miss {
            Miss::Lost => true,
            _ => false,
        }
    }
}

impl Memory {
    /// Gives back those of these huge frames that still rest at their slots.
    pub(crate) fn give_run_back(&self, core: &mut ZoneCore, parts: Parts, miss: Miss) -> GivenBack
        requires core { AreCoresOf self.now.zones core.old }
        requires zone { parts.zone < zone_count self.now.zones }
        requires few { parts.count ≤ most_in_run }
        requires end { EndsAtMost parts }
        ensures core { AreCoresOf self.now.zones core.new }
        ensures kept { InEach self.now.zones KeepsAll core.old core.new }
        ensures parts { result.parts ≡ parts }
        ensures all { result.given + result.missed ≡ parts.count }
        ensures lent { LendsFewer self.now.zones result.given core.old core.new parts.zone }
    {
        let (zone, first, count) = (parts.zone, parts.frame, parts.count);
        let mut back = GivenBack::none(parts, miss);
        for i in 0..count {
            let answer = self.give_part(core, zone, first + CHILD_FRAMES * i);
            back.add(answer);
        }
        back
    }

    /// Lays the huge frame down at its slot. Where one rests there, or there is none, it is given back.
    pub(crate) fn lay_huge_down(
        &self,
        core: &mut ZoneCore,
        held: ZoneBlock,
    ) -> Result<ZoneReceipt, FoundNone>
        requires out { IsOutOfItsZone self.now.zones held }
        requires core { AreCoresOf self.now.zones core.old }
        ensures core { AreCoresOf self.now.zones core.new }
        ensures rests { IfOk result (λ _. core.new ≡ core.old) }
        ensures same { IfOk result (IsReceiptOf held) }
        ensures given { IfErr result (λ _. GivesIn self.now.zones held.zone core.old core.new) }
    {
        let Some(receipt) = self.lay_down(core, held) else {
            return Err(FoundNone { made: () });
        };
        Ok(receipt)
    }

    // Gives back the huge frame at this frame of the zone, if it still rests at its slot.
    fn give_part(&self, core: &mut ZoneCore, zone: u32, local: u32) -> Result<GivenBlock, Missed>
        requires core { AreCoresOf self.now.zones core.old }
        requires zone { zone < zone_count self.now.zones }
        ensures core { AreCoresOf self.now.zones core.new }
        ensures kept { InEach self.now.zones KeepsAll core.old core.new }
        ensures given { IfOk result (λ _. LendsFewer self.now.zones 1 core.old core.new zone) }
        ensures very { IfOk result (λ g. (g.zone ≡ zone) × (g.frame ≡ local) × (g.order ≡ huge_order)) }
        ensures missed { IfErr result (λ m. (m.zone ≡ zone) × (m.frame ≡ local)) }
        ensures same { IfErr result (λ _. core.new ≡ core.old) }
    {
        let Some(block) = self.fetch_in(zone, local, HUGE_ORDER) else {
            return Err(Missed { zone, frame: local });
        };
        Ok(self.zones.give(core, ZoneBlock { zone, block }))
    }
}
