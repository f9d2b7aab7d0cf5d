//! Blocks that an opening is told to hold, each in its zone.

ghost use Rattle.std.specs.Prelude.{◌≡◌, MatchBool, IfOk, IfErr};
ghost use Rattle.std.specs.List.{All};
ghost use Rattle.zone_slots.specs.Layouts.{MayBeZone, MayBeLaidOut};
ghost use Rattle.zone_slots.specs.ZoneClaims.{blocks_within, BeginBelow, BeginsInOne};
ghost use Rattle.frame_slots.specs.Claims.{Ascend};

use crate::layouts::zone_of;
use frame_core::FrameBlock;
use frame_words::Fault;
use std::alloc::Global;

/// Does each of the blocks begin in a zone?
pub fn are_in_zones(zones: &[(u32, u32)], blocks: &[FrameBlock]) -> bool
    requires { MayBeLaidOut zones.now }
    ensures { MatchBool result (All (BeginsInOne zones.now) blocks.now)
        (¬ All (BeginsInOne zones.now) blocks.now) }
{
    for block in blocks {
        let Some(_zone) = zone_of(zones, block.frame) else {
            return false;
        };
    }
    true
}

/// The blocks, of such as ascend, that begin in the zone with this first frame and so many frames, each
/// counted from that first frame. Refused for lack of memory alone.
pub fn blocks_in(
    alloc: Global,
    first: u32,
    frames: u32,
    blocks: &[FrameBlock],
) -> Result<Vec<FrameBlock>, Fault>
    requires zone { MayBeZone (first, frames) }
    requires ascend { Ascend blocks.now }
    ensures blocks { IfOk result (λ own. own.items ≡ blocks_within (first, frames) blocks.now) }
    ensures err { IfErr result (λ e. e ≡ Fault.NoMemory) }
{
    let end = u64::from(first) + u64::from(frames);
    let mut own = Vec::new(alloc);
    for i in begin_below(blocks, first)..blocks.len() {
        let FrameBlock { frame, order } = blocks[i];
        if u64::from(frame) >= end {
            return Ok(own);
        }
        let Ok(()) = own.push(FrameBlock {
            frame: frame - first,
            order,
        }) else {
            return Err(Fault::NoMemory);
        };
    }
    Ok(own)
}

// How many of the blocks, which ascend, begin below the frame: a bisection.
fn begin_below(blocks: &[FrameBlock], frame: u32) -> usize
    requires { Ascend blocks.now }
    ensures { BeginBelow frame blocks.now result }
{
    let mut low = 0;
    let mut high = blocks.len();
    while low < high {
        let middle = low + (high - low) / 2;
        if blocks[middle].frame < frame {
            low = middle + 1;
        } else {
            high = middle;
        }
    }
    low
}
