//! Openings of cores: each core of a fresh memory goes behind a handle.

ghost use Rattle.std.specs.Prelude.{◌≡◌, ◌≢◌, ◌+◌, ◌<◌, IfOk, IfErr, length, map, vec_len};
ghost use Rattle.std.specs.List.{All};
ghost use Rattle.zone_slots.specs.declared.memory.Memory.{Memory};
ghost use Rattle.llfree_c.specs.Status.{ok, no_memory};
ghost use Rattle.llfree_c.specs.OpenCores.{BoxShares, IsBoxUnused, HasNoCores, HasNoCoresIn};
ghost use Rattle.llfree_c.specs.OpenCores.{IsClosedHandle, IsCoreBehind, IsUnusedBehind};
ghost use Rattle.llfree_c.specs.OpenCores.{AreHandedTo, IsTakenFor, OpensCores, OpensZones};

use crate::core_handle::CoreHandle;
use crate::crossings::may_cross;
use crate::ranges::FrameRange;
use crate::statuses::{NO_MEMORY, OK};
use crate::zone_cores::{even_cores, given_cores};
use std::alloc::Global;
use zone_slots::CoreState;

/// Opens the zones of so many frames without a hole.
pub(crate) fn open_even(
    handles: &mut [CoreHandle],
    heap: Global,
    frames: u32,
    ranges: &[FrameRange],
    has_slots: bool,
) -> u32
    ensures open { result ≡ ok → All IsClosedHandle handles.old
        × OpensCores has_slots frames ranges.now handles.new }
    ensures refused { result ≢ ok → handles.new ≡ handles.old }
    ensures why { result ≢ ok → HasNoCores frames ranges.now handles.old result }
{
    match even_cores(handles, heap, frames, ranges, has_slots) {
        Ok(cores) => {
            hand_over(handles, cores);
            OK
        }
        Err(status) => status,
    }
}

/// Opens the zones that C passed.
pub(crate) fn open_given(
    handles: &mut [CoreHandle],
    heap: Global,
    zones: &[FrameRange],
    ranges: &[FrameRange],
    has_slots: bool,
) -> u32
    ensures open { result ≡ ok → All IsClosedHandle handles.old
        × OpensZones has_slots zones.now ranges.now handles.new }
    ensures refused { result ≢ ok → handles.new ≡ handles.old }
    ensures why { result ≢ ok → HasNoCoresIn zones.now ranges.now handles.old result }
{
    match given_cores(handles, heap, zones, ranges, has_slots) {
        Ok(cores) => {
            hand_over(handles, cores);
            OK
        }
        Err(status) => status,
    }
}

pub(crate) fn boxed(
    heap: Global,
    states: Vec<CoreState>,
) -> Result<Vec<Box<CoreState, Global>>, u32>
    ensures cores { IfOk result (λ cores. map (λ b. b.value) cores.items ≡ states.items) }
    ensures err { IfErr result (λ e. e ≡ no_memory) }
{
    let mut cores = Vec::new(heap);
    for state in states {
        let Ok(core) = Box::new(heap, state) else {
            return Err(NO_MEMORY);
        };
        let Ok(()) = cores.push(core) else {
            return Err(NO_MEMORY);
        };
    }
    Ok(cores)
}

pub(crate) fn hand_over(handles: &mut [CoreHandle], mut cores: Vec<Box<CoreState, Global>>)
    requires { vec_len cores ≡ length handles.old }
    ensures shares { (m : Memory) → All (BoxShares m) cores.items
        → All (IsCoreBehind m) handles.new }
    ensures unused { All IsBoxUnused cores.items → All IsUnusedBehind handles.new }
    ensures order { AreHandedTo cores.items handles.new }
{
    for handle in handles {
        handle.set_next(&mut cores);
    }
}

impl CoreHandle {
    // The last of these cores goes behind the handle.
    fn set_next(&mut self, cores: &mut Vec<Box<CoreState, Global>>)
        requires { 0 < vec_len cores.old }
        ensures set { (m : Memory) → All (BoxShares m) cores.old.items
            → IsCoreBehind m self.new }
        ensures unused { All IsBoxUnused cores.old.items
            → IsUnusedBehind self.new × All IsBoxUnused cores.new.items }
        ensures left { (m : Memory) → All (BoxShares m) cores.old.items
            → All (BoxShares m) cores.new.items }
        ensures last { IsTakenFor self.new cores.old.items cores.new.items }
        ensures count { vec_len cores.new + 1 ≡ vec_len cores.old }
    {
        let Some(core) = cores.pop() else {
            return;
        };
        *self = CoreHandle::of(core);
        may_cross(self);
    }
}
