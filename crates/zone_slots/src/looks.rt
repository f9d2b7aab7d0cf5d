//! Which block begins at a frame, as a look at its slots tells.

ghost use Rattle.std.specs.Prelude.{◌≡◌, ◌<◌, IfSome};
ghost use Rattle.core_frames.specs.declared.shared.allocator.Allocator.{Allocator};
ghost use Rattle.frame_model.specs.Block.{block as block_at};
ghost use Rattle.frame_zones.specs.Zones.{zone_count, zone_at};
ghost use Rattle.zone_slots.specs.Looks.{block_seen, IsSightOf, HasBlockOf};
ghost use Rattle.zone_slots.specs.Memories.{IsFirstOf};
ghost use Rattle.zone_slots.specs.Runs.{IsNextSeen, SeesOneMore};
ghost use Rattle.zone_slots.specs.Uses.{HasBlock};

use crate::first_zone::FirstZone;
use crate::memory::Memory;
use frame_words::HUGE_ORDER;

// The least number that stands in a slot where a block rests.
const RESTS: u64 = 2;

/// That a look saw a block at its slot. Nothing else makes one.
#[derive(Debug, Drop)]
pub struct Sight {
    zone: u32,
    // Counted from the zone's first frame.
    frame: u32,
    order: u8,
}

impl Sight {
    /// The block has `2^order` frames.
    pub(crate) fn order(&self) -> u8
        ensures { result ≡ self.now.order }
    {
        self.order
    }
}

/// That so many huge frames, side by side in a zone, were each seen at its slot. Nothing else makes one.
#[derive(Debug, Drop)]
pub struct SeenRun {
    pub(crate) zone: u32,
    // The first frame of the first one.
    pub(crate) frame: u32,
    pub(crate) count: u32,
}

impl SeenRun {
    /// None, where the first one is to begin at this frame of the zone.
    pub(crate) fn none(zone: u32, frame: u32) -> SeenRun
        ensures { result ≡ record { zone = zone; frame = frame; count = 0 } }
    {
        SeenRun {
            zone,
            frame,
            count: 0,
        }
    }

    /// The next one was seen.
    pub(crate) fn add(&mut self, sight: Sight)
        requires { IsNextSeen self.old sight }
        ensures { SeesOneMore self.old self.new }
    {
        let _ = sight;
        self.count += 1;
    }
}

impl Memory {
    /// Which block begins at the frame of this number: each slot is loaded once, that of the largest block first.
    pub(crate) fn look(&self, known: FirstZone, hint: u32, frame: u32) -> Option<Sight>
        requires { IsFirstOf self.now.zones known }
        ensures seen { IfSome result (λ s. block_seen self.now.zones s ≡ block_at frame s.order) }
        ensures is_block { IfSome result (λ s. HasBlockOf self.now.zones s.order frame) }
    {
        let (zone, local) = self.zone_of(known, hint, frame)?;
        for below in 0..HUGE_ORDER + 1 {
            if let Some(sight) = self.look_at(zone, local, HUGE_ORDER - below) {
                return Some(sight);
            }
        }
        None
    }

    /// The block of this order at this frame of the zone, if it rests at its slot as this looks.
    #[inline(always)]
    pub(crate) fn look_at(&self, zone: u32, frame: u32, order: u8) -> Option<Sight>
        requires { zone < zone_count self.now.zones }
        ensures seen { IfSome result (IsSightOf zone frame order) }
        ensures is_block { IfSome result (λ _.
            (a : Allocator) → HasBlock order frame (zone_at self.now.zones zone a)) }
    {
        let place = zone as usize;
        let allocator = &self.zones.zones[place];
        let slot = self.slots[place].find(allocator, frame, order)?;
        if slot.perch.load() < RESTS {
            return None;
        }
        Some(Sight { zone, frame, order })
    }
}
