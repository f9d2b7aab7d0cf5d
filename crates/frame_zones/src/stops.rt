//! Stopping zones.

ghost use Rattle.std.specs.Prelude.{◌≡◌, IfOk, IfErr};
ghost use Rattle.frame_zones.specs.Stops.{IsRoomForAll, AreStopped};
ghost use Rattle.frame_zones.specs.Zones.{AreCoresOf};

use crate::image::ZoneImage;
use crate::zones::{ZoneCore, Zones};
use frame_words::Fault;
use std::alloc::Global;

/// Room for what a stop of zones answers.
#[derive(Drop)]
pub struct StopRoom {
    // For the words of each zone.
    pub(crate) words: Vec<Vec<u64>>,
    pub(crate) images: Vec<ZoneImage>,
}

impl Zones {
    /// Room for the words of all zones, for a stop. Refused only for lack of memory.
    pub fn make_room(&self, alloc: Global) -> Result<StopRoom, Fault>
        ensures room { IfOk result (IsRoomForAll self.now) }
        ensures err { IfErr result (λ e. e ≡ Fault.NoMemory) }
    {
        let Ok(mut words) = Vec::with_capacity(alloc, self.zones.len()) else {
            return Err(Fault::NoMemory);
        };
        let Ok(images) = Vec::with_capacity(alloc, self.zones.len()) else {
            return Err(Fault::NoMemory);
        };
        for zone in self.zones.as_slice() {
            let room = zone.make_room(alloc)?;
            words.push_reserved(room);
        }
        Ok(StopRoom { words, images })
    }

    /// The words of each zone as they are, in order, from one core of all zones, whatever the others
    /// are about: each as `Allocator::stop` has them. Needs no memory.
    pub fn stop(self, core: ZoneCore, room: StopRoom) -> Vec<ZoneImage>
        requires core { AreCoresOf self core }
        requires room { IsRoomForAll self room }
        ensures { AreStopped self core result.items }
    {
        let Zones {
            zones,
            mut firsts,
            ..
        } = self;
        let ZoneCore { mut cores, .. } = core;
        let StopRoom {
            mut words,
            mut images,
        } = room;
        let mut zones = zones.into_list();
        while let Some(zone) = zones.pop() {
            let Some(first) = firsts.pop() else {
                unreachable!()
            };
            let Some(part) = cores.pop() else {
                unreachable!()
            };
            let Some(room) = words.pop() else {
                unreachable!()
            };
            let image = zone.stop(part, room);
            images.push_reserved(ZoneImage { first, image });
        }
        images.reverse();
        images
    }
}
