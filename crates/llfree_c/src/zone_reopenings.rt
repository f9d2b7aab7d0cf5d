//! What C calls to open zones that it passes, with holes between them, at an image.

ghost use Rattle.std.specs.Prelude.{◌≡◌, ◌≢◌, IfOk, IfErr, length, vec_len};
ghost use Rattle.std.specs.List.{All};
ghost use Rattle.llfree_c.specs.OpenCores.{IsClosedHandle};
ghost use Rattle.llfree_c.specs.Status.{ok};
ghost use Rattle.llfree_c.specs.ZoneReopenings.{HasNoCoresInAt, ReopenGiven, ReopensZones};

use crate::blocks::ClaimedBlock;
use crate::core_handle::CoreHandle;
use crate::core_openings::{boxed, hand_over};
use crate::ranges::{FrameRange, as_pairs};
use crate::reopened::reopened_states;
use crate::statuses::{BAD_GEOMETRY, OK};
use crate::zone_cores::cores_for;
use frame_zones::MOST_ZONES;
use std::alloc::Global;
use zone_slots::{CoreState, may_be_laid_out};

/// As `llfree_reopen`, of these zones. The numbers are those of their image, zone after zone.
#[unsafe(no_mangle)]
pub extern "C" fn llfree_reopen_zones(
    handles: &mut [CoreHandle],
    heap: Global,
    zones: &[FrameRange],
    numbers: &[u64],
    claims: &[ClaimedBlock],
) -> u32
    ensures open { result ≡ ok → All IsClosedHandle handles.old
        × ReopensZones zones.now numbers.now claims.now handles.new }
    ensures refused { result ≢ ok → handles.new ≡ handles.old }
    ensures why { result ≢ ok → HasNoCoresInAt zones.now numbers.now claims.now handles.old result }
{
    match given_again(handles, heap, zones, numbers, claims) {
        Ok(cores) => {
            hand_over(handles, cores);
            OK
        }
        Err(status) => status,
    }
}

fn given_again(
    handles: &[CoreHandle],
    heap: Global,
    zones: &[FrameRange],
    numbers: &[u64],
    claims: &[ClaimedBlock],
) -> Result<Vec<Box<CoreState, Global>>, u32>
    ensures count { IfOk result (λ cores. vec_len cores ≡ length handles.now) }
    ensures closed { IfOk result (λ _. All IsClosedHandle handles.now) }
    ensures cores { IfOk result (λ cores.
        ReopenGiven (length handles.now) zones.now numbers.now claims.now cores.items) }
    ensures err { IfErr result (HasNoCoresInAt zones.now numbers.now claims.now handles.now) }
{
    let count = cores_for(handles)?;
    if count == 0 || zones.len() > MOST_ZONES {
        return Err(BAD_GEOMETRY);
    }
    let zones = as_pairs(heap, zones)?;
    if !may_be_laid_out(&zones) {
        return Err(BAD_GEOMETRY);
    }
    let states = reopened_states(heap, count, &zones, numbers, claims)?;
    boxed(heap, states)
}
