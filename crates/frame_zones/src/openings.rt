//! Opening zones.

ghost use Rattle.std.specs.Prelude.{◌≡◌, ◌<◌, ◌≤◌, [], IfOk, IfErr, OnOk, vec_len, vec_capacity, map};
ghost use Rattle.std.specs.List.{All};
ghost use Rattle.core_frames.specs.Cores.{IsOpened};
ghost use Rattle.frame_zones.specs.Spans.{most_zones, place_of_span, HoldsLawful};
ghost use Rattle.frame_zones.specs.Openings.{home_for, HaveHomes, IsLonger, AreDealt, IsBegun, AreOpened, AreUnopenedFor};

use crate::ranges::may_hold_back;
use crate::row::Row;
use crate::spans::{Span, may_be_zones};
use crate::zones::{ORDERS, Stay, ZoneCore, Zones};
use core_frames::{Allocator, Core, Start};
use frame_words::Fault;
use std::alloc::Global;

impl Zones {
    /// A zone for each span, and so many cores of all zones, of which no frame is held but those past
    /// the end of each zone and in its ranges. Refused as `BadRange` where zones may not lie so or
    /// hold that back, else for lack of memory.
    pub fn open(alloc: Global, cores: u32, spans: &[Span]) -> Result<(Zones, Vec<ZoneCore>), Fault>
        ensures opened { IfOk result (λ r. AreOpened cores (map place_of_span spans.now) r.0 r.1.items) }
        ensures lawful { IfOk result (λ _. All HoldsLawful spans.now) }
        ensures refused { IfErr result (AreUnopenedFor cores spans.now) }
    {
        if !may_be_zones(cores, spans) || !may_hold_back(spans) {
            return Err(Fault::BadRange);
        }
        let mut all = begun(alloc, cores, spans.len() as u32)?;
        let (mut zones, mut firsts, mut frames) = room_for(alloc, spans.len())?;
        for span in spans {
            let (zone, parts) = open_zone(alloc, span)?;
            deal(&mut all, parts)?;
            zones.push_reserved(zone);
            firsts.push_reserved(span.first);
            frames.push_reserved(span.geometry.frames);
        }
        Ok((
            Zones {
                zones: Row::of(zones),
                firsts,
                frames,
                cores,
            },
            all,
        ))
    }
}

// The allocator of the span, with its cores.
fn open_zone(alloc: Global, span: &Span) -> Result<(Allocator, Vec<Core>), Fault>
    requires { HoldsLawful span.now }
    ensures opened { IfOk result (λ r. IsOpened (place_of_span span.now).key r.0 r.1.items) }
    ensures err { IfErr result (λ e. e ≡ Fault.NoMemory) }
{
    Allocator::open_starting(alloc, span.geometry, &span.ranges, Start::Last)
}

// A list of what all cores read, and a core's parts, which it writes, have room for so many items more, at
// least a cache line: so no line has some of two such lists, however the heap lays them.
const ZONES_APART: usize = 1;

const FIRSTS_APART: usize = 16;

const FRAMES_APART: usize = 32;

const PARTS_APART: usize = 8;

/// Room for so many allocators, their first frames and their frames.
pub(crate) fn room_for(
    alloc: Global,
    zones: usize,
) -> Result<(Vec<Allocator>, Vec<u64>, Vec<u32>), Fault>
    requires { zones ≤ most_zones }
    ensures zones { IfOk result (λ r. (r.0.items ≡ []) × (zones ≤ vec_capacity r.0)) }
    ensures firsts { IfOk result (λ r. (r.1.items ≡ []) × (zones ≤ vec_capacity r.1)) }
    ensures frames { IfOk result (λ r. (r.2.items ≡ []) × (zones ≤ vec_capacity r.2)) }
    ensures err { IfErr result (λ e. e ≡ Fault.NoMemory) }
{
    let allocators = Vec::with_capacity(alloc, zones + ZONES_APART)?;
    let firsts = Vec::with_capacity(alloc, zones + FIRSTS_APART)?;
    let frames = Vec::with_capacity(alloc, zones + FRAMES_APART)?;
    Ok((allocators, firsts, frames))
}

/// So many cores with no part yet, whose homes lie evenly among so many zones.
pub(crate) fn begun(alloc: Global, cores: u32, zones: u32) -> Result<Vec<ZoneCore>, Fault>
    requires { 0 < zones }
    ensures count { IfOk result (λ all. vec_len all ≡ cores) }
    ensures begun { IfOk result (λ all. All (IsBegun zones) all.items) }
    ensures homes { IfOk result (λ all. HaveHomes cores zones all.items) }
    ensures err { IfErr result (λ e. e ≡ Fault.NoMemory) }
{
    let Ok(mut all) = Vec::with_capacity(alloc, cores as usize) else {
        return Err(Fault::NoMemory);
    };
    for number in 0..cores {
        let Ok(room) = Vec::with_capacity(alloc, zones as usize + PARTS_APART) else {
            return Err(Fault::NoMemory);
        };
        all.push_reserved(ZoneCore {
            cores: room,
            home: home_of(number, cores, zones),
            stays: [Stay::NONE; ORDERS],
        });
    }
    Ok(all)
}

/// The home of a core: by their numbers the cores lie as evenly among the zones as they can.
pub(crate) fn home_of(number: u32, cores: u32, zones: u32) -> u32
    requires number { number < cores }
    requires zones { 0 < zones }
    ensures inside { result < zones }
    ensures even { result ≡ home_for number cores zones }
{
    (u64::from(number) * u64::from(zones) / u64::from(cores)) as u32
}

/// A part to each core, in order. Refused only for lack of memory.
pub(crate) fn deal(cores: &mut Vec<ZoneCore>, mut parts: Vec<Core>) -> Result<(), Fault>
    requires { vec_len parts ≡ vec_len cores.old }
    ensures dealt { OnOk result (AreDealt cores.old.items parts.items cores.new.items) }
    ensures err { IfErr result (λ e. e ≡ Fault.NoMemory) }
{
    while let Some(part) = parts.pop() {
        let number = parts.len();
        cores[number].add(part)?;
    }
    Ok(())
}

impl ZoneCore {
    // The core of one zone more.
    fn add(&mut self, part: Core) -> Result<(), Fault>
        ensures longer { OnOk result (IsLonger self.old part self.new) }
        ensures err { IfErr result (λ e. e ≡ Fault.NoMemory) }
    {
        let Ok(()) = self.cores.push(part) else {
            return Err(Fault::NoMemory);
        };
        Ok(())
    }
}
