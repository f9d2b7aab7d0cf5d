//! Looks at a block, and for a run of huge frames, by cores of all zones.

ghost use Rattle.std.specs.Prelude.{◌≡◌, ◌+◌, ◌*◌, ◌%◌, ◌^◌, ◌<◌, ◌≤◌};
ghost use Rattle.frame_words.specs.Geometry.{child_frames};
ghost use Rattle.core_frames.specs.Bounds.{most_to_look};
ghost use Rattle.core_frames.specs.Cores.{memory_of, IsCoreOf, StaysCoreOf};
ghost use Rattle.frame_zones.specs.Looks.{LooksAmong, LooksForRun, LooksForRunIn, LooksFrom, LooksAtHuge};
ghost use Rattle.frame_zones.specs.Looks.{IsRunStep, most_in_run, children_among};
ghost use Rattle.frame_zones.specs.Spans.{most_zone_frames};
ghost use Rattle.frame_zones.specs.Uses.{moves_through};
ghost use Rattle.frame_zones.specs.Zones.{zone_count, AreCoresOf, StayCoresOf};

use crate::zones::{ZoneCore, Zones};
use core_frames::{Allocator, Core};
use frame_words::{CHILD_FRAMES, HUGE_ORDER};

/// The most huge frames of a run.
pub const MOST_IN_RUN: u32 = 512;

const CHILD: u64 = CHILD_FRAMES as u64;

impl Zones {
    /// Are all frames of the block of `2^order` frames free that begins at this frame, by its number among those
    /// of all zones? It is looked at in the zone that has it. False where no zone has all of it, and where the
    /// frame is no multiple of its size. Nothing is taken.
    pub fn is_free(&self, core: &mut ZoneCore, frame: u64, order: u8) -> bool
        requires { AreCoresOf self.now core.old }
        ensures core { StayCoresOf self.now core.old core.new }
        ensures looks { LooksAmong self.now frame order result core.old core.new }
        ensures all_moves { moves_through core.new ≤ moves_through core.old + most_to_look order }
    {
        let Some((zone, local)) = self.zone_of(core.home, frame) else {
            return false;
        };
        let place = zone as usize;
        self.zones[place].is_free(&mut core.cores[place], local, order)
    }

    /// The first frame, among those of all zones, of a run of `count` huge frames that looks free: 1 to 512 of
    /// them side by side in one zone, from a multiple of 512 times their number on, which is rounded up to a
    /// power of two. It is the first one of those that begin at frame `from` or behind it. Nothing is taken.
    pub fn look_for_run(&self, core: &mut ZoneCore, count: u32, from: u64) -> Option<u64>
        requires { AreCoresOf self.now core.old }
        ensures core { StayCoresOf self.now core.old core.new }
        ensures looks { LooksForRun self.now count from result core.old core.new }
        ensures all_moves { moves_through core.new ≤ moves_through core.old + children_among self.now }
    {
        if count < 1 || count > MOST_IN_RUN {
            return None;
        }
        for zone in 0..self.zones.len() as u32 {
            if let Some(frame) = self.look_for_run_in(core, zone, count, from) {
                return Some(frame);
            }
        }
        None
    }

    // The same in this zone alone.
    fn look_for_run_in(&self, core: &mut ZoneCore, zone: u32, count: u32, from: u64) -> Option<u64>
        requires core { AreCoresOf self.now core.old }
        requires zone { zone < zone_count self.now }
        requires some { 1 ≤ count }
        requires few { count ≤ most_in_run }
        ensures core { StayCoresOf self.now core.old core.new }
        ensures looks { LooksForRunIn self.now zone count from result core.old core.new }
    {
        let place = zone as usize;
        let (first, frames) = (self.firsts[place], self.frames[place]);
        first_run(
            &self.zones[place],
            &mut core.cores[place],
            first,
            frames,
            count,
            from,
        )
    }
}

// The first run of `count` huge frames of the memory that looks free, among those that begin at frame `from`
// of all zones or behind it. The memory has so many frames, from `first` on.
fn first_run(
    memory: &Allocator,
    core: &mut Core,
    first: u64,
    frames: u32,
    count: u32,
    from: u64,
) -> Option<u64>
    requires core { IsCoreOf memory.now core.old }
    requires aligned { first % child_frames ≡ 0 }
    requires inside { first + frames ≤ most_zone_frames }
    requires frames { frames ≡ (memory_of memory.now).frames }
    requires some { 1 ≤ count }
    requires few { count ≤ most_in_run }
    ensures core { StaysCoreOf memory.now core.old core.new }
    ensures looks { LooksFrom memory.now first count from result core.old core.new }
{
    let step = run_step(count);
    let (size, end) = (CHILD * u64::from(count), first + u64::from(frames));
    if from >= end {
        return None;
    }
    let mut frame = next_multiple(from.max(first), step);
    while frame + size <= end {
        if are_free(memory, core, (frame - first) as u32, count) {
            return Some(frame);
        }
        frame += step;
    }
    None
}

// The first multiple of the step that is not below.
fn next_multiple(low: u64, step: u64) -> u64
    requires some { 0 < step }
    requires room { low + step ≤ 2 ^ 64 }
    ensures multiple { result % step ≡ 0 }
    ensures low { low ≤ result }
    ensures next { result < low + step }
{
    let past = low + (step - 1);
    past - past % step
}

// Are so many huge frames free, from this frame of the memory on?
fn are_free(memory: &Allocator, core: &mut Core, local: u32, count: u32) -> bool
    requires core { IsCoreOf memory.now core.old }
    requires aligned { local % child_frames ≡ 0 }
    requires inside { local + child_frames * count ≤ (memory_of memory.now).frames }
    ensures core { StaysCoreOf memory.now core.old core.new }
    ensures looks { LooksAtHuge memory.now local count result core.old core.new }
{
    for i in 0..count {
        if !memory.is_free(core, local + CHILD_FRAMES * i, HUGE_ORDER) {
            return false;
        }
    }
    true
}

// 512 times the number, which is rounded up to a power of two: where runs of so many begin.
fn run_step(count: u32) -> u64
    requires some { 1 ≤ count }
    requires few { count ≤ most_in_run }
    ensures { IsRunStep count result }
{
    let mut step = CHILD;
    while step < CHILD * u64::from(count) {
        step *= 2;
    }
    step
}
