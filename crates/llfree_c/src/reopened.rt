//! Memories that were in use before.

ghost use Rattle.std.specs.Prelude.{◌≡◌, ℕ, ◌<◌, IfOk, IfErr, length, slice_index_or, vec_len};
ghost use Rattle.std.specs.List.{All};
ghost use Rattle.std.specs.declared.alloc.Global.{Global};
ghost use Rattle.std.specs.declared.vec.Vec.{Vec};
ghost use Rattle.frame_model.specs.declared.block.FrameBlock.{FrameBlock};
ghost use Rattle.frame_slots.specs.Claims.{Ascend};
ghost use Rattle.zone_slots.specs.Layouts.{stretch_at, MayBeLaidOut};
ghost use Rattle.zone_slots.specs.ZoneClaims.{blocks_within};
ghost use Rattle.llfree_c.specs.OpenCores.{IsClosedHandle};
ghost use Rattle.llfree_c.specs.Openings.{AreMemorySizes};
ghost use Rattle.llfree_c.specs.Reopenings.{AreImageAndClaims, IsNotReopened, Reopens};
ghost use Rattle.llfree_c.specs.Replays.{EndsReplay};
ghost use Rattle.llfree_c.specs.Status.{no_memory};
ghost use Rattle.llfree_c.specs.ZoneClaims.{AreImagesAndClaims};
ghost use Rattle.llfree_c.specs.ZoneReopenings.{HasNoCoresAt, IsNotReopenedIn, ReopenEven, ReopenStates, ShareReopened};

use crate::blocks::{ClaimedBlock, claimed_in};
use crate::core_handle::CoreHandle;
use crate::core_openings::boxed;
use crate::plain::Plain;
use crate::replay::replay;
use crate::sizes::geometry_of;
use crate::statuses::{BAD_GEOMETRY, CONTENDED, NO_MEMORY};
use crate::zone_claims::claimed_in_zones;
use crate::zone_cores::{are_zone_frames, cores_for};
use core_frames::PlainAllocator;
use frame_core::FrameBlock;
use frame_words::Fault;
use std::alloc::Global;
use zone_slots::{CoreState, blocks_in, even_zones, reopen_cores, spans_of};

impl Plain {
    /// Just the claimed blocks are out, and what the image holds besides is held for good.
    pub(crate) fn reopen(
        heap: Global,
        frames: u32,
        numbers: &[u64],
        claims: &[ClaimedBlock],
    ) -> Result<Plain, u32>
        ensures reopened { IfOk result (λ p. Reopens frames numbers.now claims.now p.allocator) }
        ensures sizes { IfOk result (λ _. AreMemorySizes frames 1) }
        ensures read { IfOk result (λ _. AreImageAndClaims frames numbers.now claims.now) }
        ensures err { IfErr result (IsNotReopened frames 1 numbers.now claims.now) }
    {
        let geometry = geometry_of(frames, 1)?;
        let claimed = claimed_in(heap, frames, numbers, claims)?;
        let Ok(mut allocator) = PlainAllocator::open(heap, geometry) else {
            return Err(NO_MEMORY);
        };
        replay(heap, &mut allocator, numbers, &claimed)?;
        Ok(Plain { allocator, frames })
    }
}

/// The cores of the zones of so many frames without a hole, a box each, of which the last keeps what the
/// image holds and no claim names.
pub(crate) fn reopened_cores(
    handles: &[CoreHandle],
    heap: Global,
    frames: u32,
    numbers: &[u64],
    claims: &[ClaimedBlock],
) -> Result<Vec<Box<CoreState, Global>>, u32>
    ensures count { IfOk result (λ cores. vec_len cores ≡ length handles.now) }
    ensures closed { IfOk result (λ _. All IsClosedHandle handles.now) }
    ensures cores { IfOk result (λ cores.
        ReopenEven (length handles.now) frames numbers.now claims.now cores.items) }
    ensures err { IfErr result (HasNoCoresAt frames numbers.now claims.now handles.now) }
{
    let count = cores_for(handles)?;
    if !are_zone_frames(frames) {
        return Err(BAD_GEOMETRY);
    }
    let Ok(zones) = even_zones(heap, frames) else {
        return Err(NO_MEMORY);
    };
    let states = reopened_states(heap, count, &zones, numbers, claims)?;
    boxed(heap, states)
}

/// The cores of zones, of which the last keeps what the image holds and no claim names.
pub(crate) fn reopened_states(
    heap: Global,
    cores: u32,
    zones: &[(u32, u32)],
    numbers: &[u64],
    claims: &[ClaimedBlock],
) -> Result<Vec<CoreState>, u32>
    requires { MayBeLaidOut zones.now }
    ensures states { IfOk result (λ states.
        ReopenStates cores zones.now numbers.now claims.now states.items) }
    ensures read { IfOk result (λ _. AreImagesAndClaims zones.now numbers.now claims.now) }
    ensures err { IfErr result (IsNotReopenedIn zones.now numbers.now claims.now) }
{
    let blocks = claimed_in_zones(heap, zones, numbers, claims)?;
    states_with(heap, cores, zones, numbers, &blocks)
}

// The same of blocks that may be claimed.
fn states_with(
    heap: Global,
    cores: u32,
    zones: &[(u32, u32)],
    numbers: &[u64],
    blocks: &[FrameBlock],
) -> Result<Vec<CoreState>, u32>
    requires zones { MayBeLaidOut zones.now }
    requires ascend { Ascend blocks.now }
    ensures states { IfOk result (λ states.
        ShareReopened cores zones.now numbers.now blocks.now states.items) }
    ensures err { IfErr result EndsReplay }
{
    let lists = lists_by_zone(heap, zones, blocks)?;
    let Ok(spans) = spans_of(heap, cores, zones, &[]) else {
        return Err(NO_MEMORY);
    };
    match reopen_cores(heap, cores, &spans, numbers, &lists) {
        Ok(states) => Ok(states),
        Err(Fault::Contended) => Err(CONTENDED),
        Err(_) => Err(NO_MEMORY),
    }
}

// The blocks that begin in each zone, counted from its first frame.
fn lists_by_zone(
    heap: Global,
    zones: &[(u32, u32)],
    blocks: &[FrameBlock],
) -> Result<Vec<Vec<FrameBlock>>, u32>
    requires zones { MayBeLaidOut zones.now }
    requires ascend { Ascend blocks.now }
    ensures count { IfOk result (λ lists. vec_len lists ≡ length zones.now) }
    ensures each { IfOk result (λ lists. (z : ℕ) (v : Vec FrameBlock Global) → z < length zones.now
        → (slice_index_or lists.items z v).items ≡ blocks_within (stretch_at zones.now z) blocks.now) }
    ensures err { IfErr result (λ e. e ≡ no_memory) }
{
    let Ok(mut lists) = Vec::with_capacity(heap, zones.len()) else {
        return Err(NO_MEMORY);
    };
    for &(first, frames) in zones {
        let Ok(list) = blocks_in(heap, first, frames, blocks) else {
            return Err(NO_MEMORY);
        };
        lists.push_reserved(list);
    }
    Ok(lists)
}
