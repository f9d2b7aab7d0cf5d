//! Opening zones at images of a memory that was in use before.

ghost use Rattle.std.specs.Prelude.{◌<◌, IfOk, IfErr, length, map};
ghost use Rattle.std.specs.List.{All};
ghost use Rattle.frame_model.specs.Block.{block as block_at};
ghost use Rattle.frame_zones.specs.Spans.{place_at};
ghost use Rattle.frame_zones.specs.Openings.{AreOpened, AreUnopenedAt};
ghost use Rattle.frame_zones.specs.Reopening.{IsReopenable, AreSurvivorsOf, AreHeldAt, AdoptsIn};
ghost use Rattle.frame_zones.specs.Zones.{zone_count, IsOutOfItsZone};

use crate::block::ZoneBlock;
use crate::image::ZoneImage;
use crate::openings::{begun, deal, room_for};
use crate::row::Row;
use crate::spans::may_be_zones_again;
use crate::zones::{ZoneCore, Zones};
use core_frames::{Allocator, Start, Survivors};
use frame_words::Fault;
use std::alloc::Global;

impl Zones {
    /// A zone at each image that equals its own rebuilding, so many cores of all zones, and what each
    /// image holds. Refused as `BadRange` where zones may not lie so, else for lack of memory.
    pub fn open_at(
        alloc: Global,
        cores: u32,
        images: &[ZoneImage],
    ) -> Result<(Zones, Vec<ZoneCore>, Vec<Survivors>), Fault>
        requires { All IsReopenable images.now }
        ensures opened { IfOk result (λ r. AreOpened cores (map place_at images.now) r.0 r.1.items) }
        ensures survivors { IfOk result (λ r. AreSurvivorsOf r.0 r.2.items) }
        ensures held { IfOk result (λ r. AreHeldAt (length images.now) images.now r.2.items) }
        ensures refused { IfErr result (AreUnopenedAt cores images.now) }
    {
        if !may_be_zones_again(cores, images) {
            return Err(Fault::BadRange);
        }
        let mut all = begun(alloc, cores, images.len() as u32)?;
        let (mut zones, mut firsts, mut frames) = room_for(alloc, images.len())?;
        let mut left = Vec::with_capacity(alloc, images.len())?;
        for image in images {
            let (zone, parts, survivors) = Allocator::open_at_starting(
                alloc,
                &image.image,
                Start::Last,
            )?;
            deal(&mut all, parts)?;
            zones.push_reserved(zone);
            firsts.push_reserved(image.first);
            left.push_reserved(survivors);
            frames.push_reserved(image.image.geometry().frames);
        }
        let zones = Zones {
            zones: Row::of(zones),
            firsts,
            frames,
            cores,
        };
        Ok((zones, all, left))
    }

    /// Hands out a block of the zone that was held before the opening, once. Refused as `BadOrder`,
    /// else as `NotHeld` where it is no block of the zone, where a frame of it lies past the end, was
    /// not held in this form or was adopted before.
    pub fn adopt(
        &self,
        survivors: &mut Vec<Survivors>,
        zone: u32,
        frame: u32,
        order: u8,
    ) -> Result<ZoneBlock, Fault>
        requires survivors { AreSurvivorsOf self.now survivors.old.items }
        requires zone { zone < zone_count self.now }
        ensures survivors { AreSurvivorsOf self.now survivors.new.items }
        ensures adopts { AdoptsIn self.now zone (block_at frame order) result
            survivors.old.items survivors.new.items }
        ensures out { IfOk result (IsOutOfItsZone self.now) }
    {
        let place = zone as usize;
        match survivors[place].adopt(&self.zones[place], frame, order) {
            Ok(block) => Ok(ZoneBlock { zone, block }),
            Err(fault) => Err(fault),
        }
    }
}
