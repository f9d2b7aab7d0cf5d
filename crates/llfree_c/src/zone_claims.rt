//! Blocks of a memory of zones that an opening is told to hold, as C passes them.

ghost use Rattle.std.specs.Prelude.{◌≡◌, ◌*◌, ◌<◌, ◌≤◌, MatchBool, IfOk, IfErr, drop, length, take};
ghost use Rattle.std.specs.List.{All};
ghost use Rattle.frame_slots.specs.Claims.{IsHeldAs};
ghost use Rattle.frame_slots.specs.Numbers.{child_count_of, most_frames, IsImageOf};
ghost use Rattle.zone_slots.specs.ImageParts.{AreStarts};
ghost use Rattle.zone_slots.specs.Layouts.{MayBeLaidOut};
ghost use Rattle.llfree_c.specs.ZoneClaims.{AreClaimedOf, AreImagesAndClaims, AreImagesOf, HasNoClaimsIn};
ghost use Rattle.llfree_c.specs.ZoneClaims.{IsHeldInOne, MayBeClaimedIn};

use crate::blocks::{ClaimedBlock, blocks_in, have_orders};
use crate::statuses::{BAD_IMAGE, BAD_ORDER, NO_MEMORY, NOT_HELD};
use frame_core::FrameBlock;
use frame_slots::{CHILD_NUMBERS, are_apart, are_held_as, is_image};
use frame_words::CHILD_FRAMES;
use std::alloc::Global;
use zone_slots::{image_numbers, image_starts, zone_of};

/// The claimed blocks, which ascend, where these are the numbers of an image of such zones that holds
/// each of them. The image and the orders are looked at before memory is asked for.
pub(crate) fn claimed_in_zones(
    heap: Global,
    zones: &[(u32, u32)],
    numbers: &[u64],
    claims: &[ClaimedBlock],
) -> Result<Vec<FrameBlock>, u32>
    requires { MayBeLaidOut zones.now }
    ensures claimed { IfOk result (λ blocks.
        AreClaimedOf zones.now numbers.now claims.now blocks.items) }
    ensures lawful { IfOk result (λ _. MayBeClaimedIn zones.now numbers.now claims.now) }
    ensures read { IfOk result (λ _. AreImagesAndClaims zones.now numbers.now claims.now) }
    ensures err { IfErr result (HasNoClaimsIn zones.now numbers.now claims.now) }
{
    if !are_images(zones, numbers) {
        return Err(BAD_IMAGE);
    }
    if !have_orders(claims) {
        return Err(BAD_ORDER);
    }
    let Ok(starts) = image_starts(heap, zones) else {
        return Err(NO_MEMORY);
    };
    claimed_at(heap, zones, &starts, numbers, claims)
}

// The same, where the numbers of each zone's image begin at these places.
fn claimed_at(
    heap: Global,
    zones: &[(u32, u32)],
    starts: &[usize],
    numbers: &[u64],
    claims: &[ClaimedBlock],
) -> Result<Vec<FrameBlock>, u32>
    requires zones { MayBeLaidOut zones.now }
    requires starts { AreStarts zones.now starts.now }
    requires read { AreImagesAndClaims zones.now numbers.now claims.now }
    ensures claimed { IfOk result (λ blocks.
        AreClaimedOf zones.now numbers.now claims.now blocks.items) }
    ensures lawful { IfOk result (λ _. MayBeClaimedIn zones.now numbers.now claims.now) }
    ensures err { IfErr result (HasNoClaimsIn zones.now numbers.now claims.now) }
{
    let blocks = blocks_in(heap, claims)?;
    if !are_held_in(zones, starts, numbers, &blocks) {
        return Err(NOT_HELD);
    }
    if !are_apart(&blocks) {
        return Err(NOT_HELD);
    }
    Ok(blocks)
}

// Are these the numbers of an image of the zones?
fn are_images(zones: &[(u32, u32)], numbers: &[u64]) -> bool
    requires { MayBeLaidOut zones.now }
    ensures { MatchBool result (AreImagesOf zones.now numbers.now)
        (¬ AreImagesOf zones.now numbers.now) }
{
    if numbers.len() != image_numbers(zones) {
        return false;
    }
    let mut start = 0;
    for zone in 0..zones.len() {
        let frames = zones[zone].1;
        if !is_image_at(numbers, start, frames) {
            return false;
        }
        start += numbers_for(frames);
    }
    true
}

// As many numbers as an image of so many frames has.
fn numbers_for(frames: u32) -> usize
    ensures { result ≡ 9 * child_count_of frames }
{
    CHILD_NUMBERS * frames.div_ceil(CHILD_FRAMES) as usize
}

// Are the numbers from a place on, as many as such an image has, those of one of so many frames?
fn is_image_at(numbers: &[u64], start: usize, frames: u32) -> bool
    requires { frames ≤ most_frames }
    ensures { MatchBool result
        (IsImageOf frames (take (9 * child_count_of frames) (drop start numbers.now)))
        (¬ IsImageOf frames (take (9 * child_count_of frames) (drop start numbers.now))) }
{
    let back = behind(numbers, start);
    let (own, _rest) = back.split_at(numbers_for(frames).min(back.len()));
    is_image(own, frames)
}

// Does the image hold each of the blocks in its own form, in a zone?
fn are_held_in(
    zones: &[(u32, u32)],
    starts: &[usize],
    numbers: &[u64],
    blocks: &[FrameBlock],
) -> bool
    requires zones { MayBeLaidOut zones.now }
    requires starts { AreStarts zones.now starts.now }
    ensures { MatchBool result (All (IsHeldInOne zones.now numbers.now) blocks.now)
        (¬ All (IsHeldInOne zones.now numbers.now) blocks.now) }
{
    for block in blocks {
        if !is_held_in(zones, starts, numbers, block) {
            return false;
        }
    }
    true
}

fn is_held_in(zones: &[(u32, u32)], starts: &[usize], numbers: &[u64], block: &FrameBlock) -> bool
    requires zones { MayBeLaidOut zones.now }
    requires starts { AreStarts zones.now starts.now }
    ensures { MatchBool result (IsHeldInOne zones.now numbers.now block.now)
        (¬ IsHeldInOne zones.now numbers.now block.now) }
{
    let Some(zone) = zone_of(zones, block.frame) else {
        return false;
    };
    let (first, frames) = zones[zone];
    let local = FrameBlock {
        frame: block.frame - first,
        order: block.order,
    };
    if !is_held_as(behind(numbers, starts[zone]), frames, local) {
        return false;
    }
    true
}

fn is_held_as(numbers: &[u64], frames: u32, block: FrameBlock) -> bool
    requires { frames ≤ most_frames }
    ensures { MatchBool result (IsHeldAs frames numbers.now block)
        (¬ IsHeldAs frames numbers.now block) }
{
    are_held_as(numbers, frames, &[block])
}

// The numbers from a place on.
fn behind(numbers: &[u64], from: usize) -> &[u64]
    ensures { result.now ≡ drop from numbers.now }
{
    let (_front, back) = numbers.split_at(from.min(numbers.len()));
    back
}
