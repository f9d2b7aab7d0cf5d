//! Blocks that an opening is told to hold, as C passes them.

ghost use Rattle.std.specs.Prelude.{◌≡◌, ◌⊎◌, ◌≤◌, MatchBool, IfOk, IfErr};
ghost use Rattle.std.specs.List.{All};
ghost use Rattle.std.specs.List.Sorted.{IsPermutation};
ghost use Rattle.frame_slots.specs.Claims.{Ascend};
ghost use Rattle.frame_slots.specs.Numbers.{most_frames};
ghost use Rattle.llfree_c.specs.Reopenings.{claimed_blocks, AreImageAndClaims, HasNoClaims, NamesAnOrder};
ghost use Rattle.llfree_c.specs.Reopenings.{IsClaimedOf, MayBeClaimed};
ghost use Rattle.llfree_c.specs.Status.{no_memory};

use crate::statuses::{BAD_IMAGE, BAD_ORDER, NO_MEMORY, NOT_HELD};
use frame_core::FrameBlock;
use frame_slots::{are_apart, are_held_as, is_image};
use frame_words::HUGE_ORDER;
use std::alloc::Global;

/// The block of this order from this frame on.
#[repr(C)]
#[derive(Clone, Copy)]
pub struct ClaimedBlock {
    pub frame: u32,
    pub order: u8,
}

/// The claimed blocks, which ascend, where these are the numbers of an image of so many frames that
/// holds each of them.
pub(crate) fn claimed_in(
    heap: Global,
    frames: u32,
    numbers: &[u64],
    claims: &[ClaimedBlock],
) -> Result<Vec<FrameBlock>, u32>
    requires { frames ≤ most_frames }
    ensures claimed { IfOk result (λ blocks. IsClaimedOf frames numbers.now claims.now blocks.items) }
    ensures lawful { IfOk result (λ _. MayBeClaimed frames numbers.now claims.now) }
    ensures read { IfOk result (λ _. AreImageAndClaims frames numbers.now claims.now) }
    ensures err { IfErr result (HasNoClaims frames numbers.now claims.now) }
{
    if !is_image(numbers, frames) {
        return Err(BAD_IMAGE);
    }
    if !have_orders(claims) {
        return Err(BAD_ORDER);
    }
    let blocks = blocks_in(heap, claims)?;
    if !are_held_as(numbers, frames, &blocks) {
        return Err(NOT_HELD);
    }
    if !are_apart(&blocks) {
        return Err(NOT_HELD);
    }
    Ok(blocks)
}

pub(crate) fn have_orders(claims: &[ClaimedBlock]) -> bool
    ensures { MatchBool result (All NamesAnOrder claims.now) (¬ All NamesAnOrder claims.now) }
{
    for claim in claims {
        if claim.order > HUGE_ORDER {
            return false;
        }
    }
    true
}

pub(crate) fn blocks_in(heap: Global, claims: &[ClaimedBlock]) -> Result<Vec<FrameBlock>, u32>
    ensures same { IfOk result (λ blocks. IsPermutation (claimed_blocks claims.now) blocks.items) }
    ensures ascend { IfOk result (λ blocks. Ascend blocks.items) }
    ensures err { IfErr result (λ e. e ≡ no_memory) }
{
    let Ok(mut blocks) = Vec::with_capacity(heap, claims.len()) else {
        return Err(NO_MEMORY);
    };
    for claim in claims {
        blocks.push_reserved(FrameBlock {
            frame: claim.frame,
            order: claim.order,
        });
    }
    blocks.sort_unstable_by_key(|block| block.frame);
    Ok(blocks)
}
