//! Parting zones off, the last first, so that each is closed with its own cores.

ghost use Rattle.std.specs.Prelude.{◌≡◌, ◌<◌, ◌≤◌, [], IfOk, IfErr, OnErr, vec_len, vec_capacity, length};
ghost use Rattle.std.specs.List.{All};
ghost use Rattle.frame_zones.specs.Openings.{IsLonger, AreDealt};
ghost use Rattle.frame_zones.specs.Parting.{HasPart, HasRoomForPart, PartsOff, KeepsFirsts};
ghost use Rattle.frame_zones.specs.Zones.{zone_count, HasCoresIn};

use crate::row::Row;
use crate::zones::{ZoneCore, Zones};
use core_frames::{Allocator, Core};
use std::alloc::Global;

impl Zones {
    /// How many zones there are.
    pub fn count(&self) -> usize
        ensures { result ≡ zone_count self.now }
    {
        self.zones.len()
    }

    /// Parts the last zone off: its allocator and its cores, in order, which close it. For want of
    /// memory the zones are handed back, and nothing changes.
    pub fn part_last(
        self,
        alloc: Global,
        cores: &mut Vec<ZoneCore>,
    ) -> Result<(Zones, Allocator, Vec<Core>), Zones>
        requires some { 0 < zone_count self }
        requires cores { All (HasCoresIn self.zones.items) cores.old.items }
        ensures parted { IfOk result (λ r. PartsOff self.zones.items r.1 r.0.zones.items
            cores.old.items r.2.items cores.new.items) }
        ensures firsts { IfOk result (λ r. KeepsFirsts self.firsts.items r.0.firsts.items) }
        ensures same { IfErr result (λ zones. zones ≡ self) }
        ensures same_cores { OnErr result (cores.new ≡ cores.old) }
    {
        let Ok(parts) = Vec::with_capacity(alloc, cores.len()) else {
            return Err(self);
        };
        let Zones {
            zones,
            mut firsts,
            mut frames,
            cores: count,
            ..
        } = self;
        let mut zones = zones.into_list();
        let Some(zone) = zones.pop() else {
            unreachable!()
        };
        let Some(_first) = firsts.pop() else {
            unreachable!()
        };
        let Some(_frames) = frames.pop() else {
            unreachable!()
        };
        let parts = gather(cores, parts);
        let left = Zones {
            zones: Row::of(zones),
            firsts,
            frames,
            cores: count,
        };
        Ok((left, zone, parts))
    }
}

/// The last part of each core, in order.
pub(crate) fn gather(cores: &mut Vec<ZoneCore>, mut parts: Vec<Core>) -> Vec<Core>
    requires empty { parts.items ≡ [] }
    requires room { vec_len cores.old ≤ vec_capacity parts }
    requires some { All HasPart cores.old.items }
    ensures dealt { AreDealt cores.new.items result.items cores.old.items }
    ensures count { length result.items ≡ length cores.new.items }
    ensures room { All HasRoomForPart cores.new.items }
{
    for number in 0..cores.len() {
        parts.push_reserved(cores[number].take_last());
    }
    parts
}

/// The parts become the last ones of the cores, in order, again. There is room for them.
pub(crate) fn put_back(cores: &mut Vec<ZoneCore>, mut parts: Vec<Core>)
    requires count { vec_len parts ≡ vec_len cores.old }
    requires room { All HasRoomForPart cores.old.items }
    ensures { AreDealt cores.old.items parts.items cores.new.items }
{
    while let Some(part) = parts.pop() {
        let number = parts.len();
        cores[number].put_last(part);
    }
}

impl ZoneCore {
    // The core of the last zone. There is room for it then.
    fn take_last(&mut self) -> Core
        requires { HasPart self.old }
        ensures shorter { IsLonger self.new result self.old }
        ensures room { HasRoomForPart self.new }
    {
        let Some(part) = self.cores.pop() else {
            unreachable!()
        };
        part
    }

    fn put_last(&mut self, part: Core)
        requires { HasRoomForPart self.old }
        ensures { IsLonger self.old part self.new }
    {
        self.cores.push_reserved(part);
    }
}
