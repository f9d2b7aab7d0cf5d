//! The cores of a fresh memory of zones.

ghost use Rattle.std.specs.Prelude.{◌≡◌, ◌+◌, ◌<◌, [], true, MatchBool, IfOk, IfErr, vec_len, map};
ghost use Rattle.std.specs.Arc.{arc_value};
ghost use Rattle.std.specs.List.{All};
ghost use Rattle.frame_zones.specs.Openings.{AreOpened, HaveHomes};
ghost use Rattle.frame_zones.specs.Spans.{place_of_span};
ghost use Rattle.frame_zones.specs.Zones.{zone_count, AreCoresOf};
ghost use Rattle.zone_slots.specs.Memories.{HaveNumbers};
ghost use Rattle.zone_slots.specs.Openings.{LieAt, Shares, IsListIn, AreListsIn, IsUsedAlike, IsUnusedCore, IsUnusedState};
ghost use Rattle.zone_slots.specs.Openings.{HasNumbers, MayBeOpened, IsNoOpening, AreUnusedIn, AreAllCoresOf};
ghost use Rattle.zone_slots.specs.Openings.{parts_from_last, HaveSameHomes, HoldBack};

use crate::core_state::CoreState;
use crate::frame_list::FrameList;
use crate::layouts::MOST_NUMBERS;
use crate::memory::Memory;
use frame_slots::SlotList;
use frame_words::{CHILD_FRAMES, Fault};
use frame_zones::{Span, ZoneCore, Zones};
use std::alloc::Global;
use std::sync::Arc;

const CHILD: u64 = CHILD_FRAMES as u64;

// Room for so many lists more, above a cache line: behind what all cores read lies nothing that one writes.
pub(crate) const LISTS_APART: usize = 2;

/// The cores of a memory with a zone for each span, whose opening holds back just the frames past the
/// end of each zone and those of its ranges, which are never given out. Refused as `BadRange`, else for
/// lack of memory.
pub fn open_cores(alloc: Global, cores: u32, spans: &[Span]) -> Result<Vec<CoreState>, Fault>
    ensures cores { IfOk result (λ states.
        AreAllCoresOf true cores (map place_of_span spans.now) states.items) }
    ensures lawful { IfOk result (λ _. MayBeOpened cores spans.now) }
    ensures refused { IfErr result (IsNoOpening cores spans.now) }
{
    let (memory, parts) = open_memory(alloc, cores, spans)?;
    let Ok(shared) = Arc::new(alloc, memory) else {
        return Err(Fault::NoMemory);
    };
    let states = cores_over(alloc, &shared, parts)?;
    Ok(states)
}

pub(crate) fn open_memory(
    alloc: Global,
    cores: u32,
    spans: &[Span],
) -> Result<(Memory, Vec<ZoneCore>), Fault>
    ensures zones { IfOk result (λ r. LieAt cores (map place_of_span spans.now) r.0.zones) }
    ensures slots { IfOk result (λ r. AreListsIn true r.0.zones r.0.slots.items) }
    ensures cores { IfOk result (λ r. AreUnusedIn r.0.zones r.1.items) }
    ensures homes { IfOk result (λ r. HaveHomes cores (zone_count r.0.zones) r.1.items) }
    ensures count { IfOk result (λ r. vec_len r.1 ≡ cores) }
    ensures lawful { IfOk result (λ _. MayBeOpened cores spans.now) }
    ensures refused { IfErr result (IsNoOpening cores spans.now) }
{
    let (zones, mut parts) = open_zones(alloc, cores, spans)?;
    let slots = lists_through(alloc, &zones, spans, &mut parts)?;
    let memory = Memory::of(alloc, zones, slots);
    Ok((memory, parts))
}

pub(crate) fn open_zones(
    alloc: Global,
    cores: u32,
    spans: &[Span],
) -> Result<(Zones, Vec<ZoneCore>), Fault>
    ensures zones { IfOk result (λ r. LieAt cores (map place_of_span spans.now) r.0) }
    ensures numbered { IfOk result (λ r. HaveNumbers r.0) }
    ensures held_back { IfOk result (λ r. HoldBack spans.now r.0) }
    ensures cores { IfOk result (λ r. AreUnusedIn r.0 r.1.items) }
    ensures homes { IfOk result (λ r. HaveHomes cores (zone_count r.0) r.1.items) }
    ensures count { IfOk result (λ r. vec_len r.1 ≡ cores) }
    ensures lawful { IfOk result (λ _. MayBeOpened cores spans.now) }
    ensures refused { IfErr result (IsNoOpening cores spans.now) }
{
    if !have_numbers(spans) {
        return Err(Fault::BadRange);
    }
    let (zones, parts) = Zones::open(alloc, cores, spans)?;
    Ok((zones, parts))
}

// Has each frame of them a number of 32 bits?
fn have_numbers(spans: &[Span]) -> bool
    ensures { MatchBool result (All HasNumbers spans.now) (¬ All HasNumbers spans.now) }
{
    for span in spans {
        if !has_numbers(span) {
            return false;
        }
    }
    true
}

fn has_numbers(span: &Span) -> bool
    ensures { MatchBool result (HasNumbers span.now) (¬ HasNumbers span.now) }
{
    span.first <= MOST_NUMBERS
        && CHILD * u64::from(span.geometry.children) <= MOST_NUMBERS - span.first
}

// The slots of each zone's blocks, found through the last core.
fn lists_through(
    alloc: Global,
    zones: &Zones,
    spans: &[Span],
    parts: &mut Vec<ZoneCore>,
) -> Result<Vec<SlotList>, Fault>
    requires cores { AreUnusedIn zones.now parts.old.items }
    requires held_back { HoldBack spans.now zones.now }
    ensures lists { IfOk result (λ lists. AreListsIn true zones.now lists.items) }
    ensures cores { IfOk result (λ _. AreUnusedIn zones.now parts.new.items) }
    ensures homes { IfOk result (λ _. HaveSameHomes parts.old.items parts.new.items) }
    ensures count { IfOk result (λ _. vec_len parts.new ≡ vec_len parts.old) }
    ensures err { IfErr result (λ e. e ≡ Fault.NoMemory) }
{
    let Some(mut part) = parts.pop() else {
        return Err(Fault::NoMemory);
    };
    let lists = lists_of(alloc, zones, spans, &mut part)?;
    let Ok(()) = parts.push(part) else {
        return Err(Fault::NoMemory);
    };
    Ok(lists)
}

fn lists_of(
    alloc: Global,
    zones: &Zones,
    spans: &[Span],
    core: &mut ZoneCore,
) -> Result<Vec<SlotList>, Fault>
    requires core { AreCoresOf zones.now core.old }
    requires held_back { HoldBack spans.now zones.now }
    ensures core { AreCoresOf zones.now core.new }
    ensures home { core.new.home ≡ core.old.home }
    ensures used { IfOk result (λ _. IsUsedAlike zones.now core.old core.new) }
    ensures lists { IfOk result (λ lists. AreListsIn true zones.now lists.items) }
    ensures err { IfErr result (λ e. e ≡ Fault.NoMemory) }
{
    let Ok(mut lists) = Vec::with_capacity(alloc, zones.count() + LISTS_APART) else {
        return Err(Fault::NoMemory);
    };
    for zone in 0..zones.count() {
        let list = list_in(alloc, zones, spans, core, zone)?;
        lists.push_reserved(list);
    }
    Ok(lists)
}

// The slots of one zone's blocks.
fn list_in(
    alloc: Global,
    zones: &Zones,
    spans: &[Span],
    core: &mut ZoneCore,
    zone: usize,
) -> Result<SlotList, Fault>
    requires core { AreCoresOf zones.now core.old }
    requires held_back { HoldBack spans.now zones.now }
    requires zone { zone < zone_count zones.now }
    ensures core { AreCoresOf zones.now core.new }
    ensures home { core.new.home ≡ core.old.home }
    ensures used { IfOk result (λ _. IsUsedAlike zones.now core.old core.new) }
    ensures list { IfOk result (IsListIn true zones.now zone) }
    ensures err { IfErr result (λ e. e ≡ Fault.NoMemory) }
{
    SlotList::open(
        alloc,
        &zones.zones[zone],
        &mut core.cores[zone],
        zones.frames[zone],
        &spans[zone].ranges,
    )
}

pub(crate) fn cores_over(
    alloc: Global,
    shared: &Arc<Memory, Global>,
    mut cores: Vec<ZoneCore>,
) -> Result<Vec<CoreState>, Fault>
    requires { All (AreCoresOf (arc_value shared.now).zones) cores.items }
    ensures shared { IfOk result (λ states. All (Shares (arc_value shared.now)) states.items) }
    ensures unused { All IsUnusedCore cores.items
        → IfOk result (λ states. All IsUnusedState states.items) }
    ensures order { IfOk result (λ states. parts_from_last states.items ≡ cores.items) }
    ensures count { IfOk result (λ states. vec_len states ≡ vec_len cores) }
    ensures err { IfErr result (λ e. e ≡ Fault.NoMemory) }
{
    let mut states = Vec::new(alloc);
    while let Some(core) = cores.pop() {
        let state = state_over(alloc, shared, core)?;
        let Ok(()) = states.push(state) else {
            return Err(Fault::NoMemory);
        };
    }
    Ok(states)
}

pub(crate) fn state_over(
    alloc: Global,
    shared: &Arc<Memory, Global>,
    core: ZoneCore,
) -> Result<CoreState, Fault>
    requires { AreCoresOf (arc_value shared.now).zones core }
    ensures shared { IfOk result (Shares (arc_value shared.now)) }
    ensures core { IfOk result (λ s. s.core ≡ core) }
    ensures rest { IfOk result (λ s. s.rest.list.items ≡ []) }
    ensures err { IfErr result (λ e. e ≡ Fault.NoMemory) }
{
    let Ok(shared) = Arc::try_clone(shared) else {
        return Err(Fault::NoMemory);
    };
    let rest = FrameList::new(alloc)?;
    let first = shared.first_zone();
    Ok(CoreState {
        shared,
        core,
        slotless: 0,
        last: None,
        given: None,
        halves: None,
        parts: None,
        back: None,
        run: None,
        seen: None,
        first,
        rest,
        apart: [0; 9],
    })
}
