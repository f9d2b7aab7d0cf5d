//! The cores of zones of a memory that was in use before.

ghost use Rattle.std.specs.Prelude.{◌≡◌, ℕ, ◌+◌, ◌<◌, ◌∷◌, true, IfOk, IfErr, vec_len, map, drop, length};
ghost use Rattle.core_frames.specs.declared.shared.allocator.Allocator.{Allocator};
ghost use Rattle.core_frames.specs.declared.shared.allocator.Core.{Core};
ghost use Rattle.core_frames.specs.Cores.{memory_of};
ghost use Rattle.frame_slots.specs.Reopenings.{KeepsHeldBeside, IsNoReplay};
ghost use Rattle.frame_slots.specs.Slots.{IsUnused, laid_down};
ghost use Rattle.frame_zones.specs.Openings.{HaveHomes};
ghost use Rattle.frame_zones.specs.Spans.{place_of_span};
ghost use Rattle.frame_zones.specs.Zones.{zone_count, zone_at, core_at, AreCoresOf};
ghost use Rattle.zone_slots.specs.Openings.{LieAt, AreListsIn, IsUnusedCore, AreUnusedIn, MayBeOpened};
ghost use Rattle.zone_slots.specs.Reopenings.{ChangesIn, KeepsRests, HasLaidIn, HaveLaidDown, AreReopened, IsNoReopening};

use crate::core_state::CoreState;
use crate::memory::Memory;
use crate::openings::{cores_over, open_memory, state_over};
use frame_core::FrameBlock;
use frame_slots::{CHILD_NUMBERS, Receipt};
use frame_words::{CHILD_FRAMES, Fault};
use frame_zones::{Span, ZoneCore};
use std::alloc::Global;
use std::sync::Arc;

/// The cores of zones that hold what the image with these numbers holds, nine for each child, zone after
/// zone, whatever its counters say. The claimed blocks, a list for each zone, which ascend and count from
/// the zone's first frame, are laid down at their slots, as blocks that were taken; all else that is held
/// the last core keeps. Refused as an opening is; or as `Contended` where a claimed block is not held by
/// itself, or some block was not found, as where a span has ranges.
pub fn reopen_cores(
    alloc: Global,
    cores: u32,
    spans: &[Span],
    numbers: &[u64],
    claimed: &[Vec<FrameBlock>],
) -> Result<Vec<CoreState>, Fault>
    requires { length claimed.now ≡ length spans.now }
    ensures cores { IfOk result (λ states.
        AreReopened cores (map place_of_span spans.now) numbers.now claimed.now states.items) }
    ensures lawful { IfOk result (λ _. MayBeOpened cores spans.now) }
    ensures err { IfErr result (IsNoReopening cores spans.now) }
{
    let (memory, parts, keeper) = reopen_memory(alloc, cores, spans, numbers, claimed)?;
    let Ok(shared) = Arc::new(alloc, memory) else {
        return Err(Fault::NoMemory);
    };
    let mut states = cores_over(alloc, &shared, parts)?;
    let keeper = state_over(alloc, &shared, keeper)?;
    let Ok(()) = states.push(keeper) else {
        return Err(Fault::NoMemory);
    };
    Ok(states)
}

// What all cores share, all of them but one, and that one, which keeps what is not claimed.
fn reopen_memory(
    alloc: Global,
    cores: u32,
    spans: &[Span],
    numbers: &[u64],
    claimed: &[Vec<FrameBlock>],
) -> Result<(Memory, Vec<ZoneCore>, ZoneCore), Fault>
    requires { length claimed.now ≡ length spans.now }
    ensures zones { IfOk result (λ r. LieAt cores (map place_of_span spans.now) r.0.zones) }
    ensures slots { IfOk result (λ r. AreListsIn true r.0.zones r.0.slots.items) }
    ensures homes { IfOk result (λ r. HaveHomes cores (zone_count r.0.zones) (r.2 ∷ r.1.items)) }
    ensures cores { IfOk result (λ r. AreUnusedIn r.0.zones r.1.items × AreCoresOf r.0.zones r.2) }
    ensures rest { IfOk result (λ r. KeepsRests numbers.now claimed.now r.0.zones r.2) }
    ensures count { IfOk result (λ r. vec_len r.1 + 1 ≡ cores) }
    ensures laid { IfOk result (λ r. HaveLaidDown claimed.now r.0) }
    ensures lawful { IfOk result (λ _. MayBeOpened cores spans.now) }
    ensures err { IfErr result (IsNoReopening cores spans.now) }
{
    let (mut memory, mut parts) = open_memory(alloc, cores, spans)?;
    if parts.is_empty() {
        return Err(Fault::NoMemory);
    }
    // The first core keeps it, which stands last, as an opening has it.
    let mut part = parts.remove(0);
    memory.replay(alloc, &mut part, numbers, claimed)?;
    Ok((memory, parts, part))
}

impl Memory {
    // Each zone holds what the image holds there.
    fn replay(
        &mut self,
        alloc: Global,
        core: &mut ZoneCore,
        numbers: &[u64],
        claimed: &[Vec<FrameBlock>],
    ) -> Result<(), Fault>
        requires core { AreCoresOf self.old.zones core.old × IsUnusedCore core.old }
        requires claimed { length claimed.now ≡ zone_count self.old.zones }
        ensures zones { self.new.zones ≡ self.old.zones }
        ensures slots { self.new.slots ≡ self.old.slots }
        ensures core { AreCoresOf self.old.zones core.new }
        ensures home { core.new.home ≡ core.old.home }
        ensures rest { IfOk result (λ _. KeepsRests numbers.now claimed.now self.old.zones core.new) }
        ensures laid { IfOk result (λ _. HaveLaidDown claimed.now self.new) }
        ensures err { IfErr result IsNoReplay }
    {
        let Ok(mut rows) = Vec::with_capacity(alloc, self.zones.count()) else {
            return Err(Fault::NoMemory);
        };
        let mut from = 0;
        for zone in 0..self.zones.count() {
            let row = self.replay_in(alloc, core, zone, behind(numbers, from), &claimed[zone])?;
            rows.push_reserved(row);
            from += CHILD_NUMBERS * self.zones.frames[zone].div_ceil(CHILD_FRAMES) as usize;
        }
        self.reclaimed = rows;
        Ok(())
    }

    // The same in one zone.
    fn replay_in(
        &self,
        alloc: Global,
        core: &mut ZoneCore,
        zone: usize,
        numbers: &[u64],
        claimed: &[FrameBlock],
    ) -> Result<Vec<Receipt>, Fault>
        requires core { AreCoresOf self.now.zones core.old }
        requires zone { zone < zone_count self.now.zones }
        requires unused { (x : Core) → IsUnused (core_at core.old zone x) }
        ensures core { ChangesIn self.now.zones zone core.old core.new }
        ensures home { core.new.home ≡ core.old.home }
        ensures rest { IfOk result (λ _. (a : Allocator) (x : Core)
            → KeepsHeldBeside (memory_of (zone_at self.now.zones zone a)).frames numbers.now claimed.now
            (core_at core.new zone x)) }
        ensures laid { IfOk result (λ row. map laid_down row.items ≡ claimed.now) }
        ensures err { IfErr result IsNoReplay }
    {
        self.slots[zone].replay(
            alloc,
            &self.zones.zones[zone],
            &mut core.cores[zone],
            self.zones.frames[zone],
            numbers,
            claimed,
        )
    }
}

// The numbers from a place on.
fn behind(numbers: &[u64], from: usize) -> &[u64]
    ensures { result.now ≡ drop from numbers.now }
{
    let (_front, back) = numbers.split_at(from.min(numbers.len()));
    back
}
