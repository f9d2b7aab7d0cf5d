//! A core of all zones of a memory.

ghost use Rattle.std.specs.Arc.{arc_value};
ghost use Rattle.frame_zones.specs.Zones.{AreCoresOf};
ghost use Rattle.zone_slots.specs.Memories.{IsFirstOf};
ghost use Rattle.zone_slots.specs.Resting.{AreSingles};

use crate::first_zone::FirstZone;
use crate::frame_list::FrameList;
use crate::given_back::GivenBack;
use crate::looks::Sight;
use crate::memory::Memory;
use crate::parts::Parts;
use crate::runs::GivenRun;
use crate::zone_receipt::ZoneReceipt;
use frame_zones::{GivenBlock, ZoneCore};
use std::alloc::Global;
use std::sync::Arc;

/// A core: what all share, and its own part in each zone.
#[derive(Drop)]
pub struct CoreState {
    pub(crate) shared: Arc<Memory, Global>,
    pub(crate) core: ZoneCore,
    // How often a block that was taken or split found no slot; it wraps.
    pub(crate) slotless: u64,
    // Of the block that its last take laid down.
    pub(crate) last: Option<ZoneReceipt>,
    // Of the block that its last give gave.
    pub(crate) given: Option<GivenBlock>,
    // Of the halves that its last split laid down, the lower first.
    pub(crate) halves: Option<(ZoneReceipt, ZoneReceipt)>,
    // Of the blocks that its last split into all parts of one order, or its last take of a run, laid down.
    pub(crate) parts: Option<Parts>,
    // Of what a take of a run last gave back, since others had fetched some of it or a huge frame found no slot.
    pub(crate) back: Option<GivenBack>,
    // Of the run that its last give of one gave.
    pub(crate) run: Option<GivenRun>,
    // Of the block that its last look saw.
    pub(crate) seen: Option<Sight>,
    pub(crate) first: FirstZone,
    // Single frames that were given to the core, and rest with it.
    pub(crate) rest: FrameList,
    // No two cores share a cache line.
    pub(crate) apart: [u64; 9],
    pub ghost is_core: { AreCoresOf (arc_value shared).zones core },
    pub ghost rests: { AreSingles (arc_value shared).zones rest.list.items },
    pub ghost known: { IsFirstOf (arc_value shared).zones first },
}
