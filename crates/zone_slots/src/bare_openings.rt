//! The cores of a fresh memory of zones that has no slots.

ghost use Rattle.std.specs.Prelude.{◌≡◌, false, IfOk, IfErr, map};
ghost use Rattle.frame_zones.specs.Spans.{place_of_span};
ghost use Rattle.zone_slots.specs.Openings.{AreListsIn, MayBeOpened, IsNoOpening, AreAllCoresOf};

use crate::core_state::CoreState;
use crate::memory::Memory;
use crate::openings::{LISTS_APART, cores_over, open_zones};
use frame_slots::SlotList;
use frame_words::Fault;
use frame_zones::{Span, Zones};
use std::alloc::Global;
use std::sync::Arc;

/// As `open_cores`, but no slot is made: only blocks whose rights the caller keeps can be taken.
pub fn open_bare_cores(alloc: Global, cores: u32, spans: &[Span]) -> Result<Vec<CoreState>, Fault>
    ensures cores { IfOk result (λ states.
        AreAllCoresOf false cores (map place_of_span spans.now) states.items) }
    ensures lawful { IfOk result (λ _. MayBeOpened cores spans.now) }
    ensures refused { IfErr result (IsNoOpening cores spans.now) }
{
    let (zones, parts) = open_zones(alloc, cores, spans)?;
    let lists = no_lists(alloc, &zones)?;
    let memory = Memory::of(alloc, zones, lists);
    let Ok(shared) = Arc::new(alloc, memory) else {
        return Err(Fault::NoMemory);
    };
    let states = cores_over(alloc, &shared, parts)?;
    Ok(states)
}

// For each zone a list with no slot.
fn no_lists(alloc: Global, zones: &Zones) -> Result<Vec<SlotList>, Fault>
    ensures lists { IfOk result (λ lists. AreListsIn false zones.now lists.items) }
    ensures err { IfErr result (λ e. e ≡ Fault.NoMemory) }
{
    let Ok(mut lists) = Vec::with_capacity(alloc, zones.count() + LISTS_APART) else {
        return Err(Fault::NoMemory);
    };
    for zone in zones.zones.as_slice() {
        lists.push_reserved(SlotList::none(alloc, zone));
    }
    Ok(lists)
}
