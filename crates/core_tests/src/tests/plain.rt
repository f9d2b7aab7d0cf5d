//! Which blocks the allocator for one thread answers, and the words that it leaves.

ghost use Rattle.std.specs.Prelude.{◌≡◌, ◌+◌, ◌<◌, [], IfOk, OnOk, vec_len};
ghost use Rattle.std.specs.List.Sorted.{IsPermutation};

use super::scripted::{Words, words_of};
use core_frames::PlainAllocator;
use frame_core::{HeldBlock, Image, PlainBlock};
use frame_words::{Fault, Geometry, TakeFault};
use std::alloc::Global;
use std::process::Abort;
use std::test::Fail;

/// A call, with what it is to answer. Blocks stand in a list, oldest first.
#[derive(Clone, Copy)]
enum Ask {
    /// The core and the order, and the first frame of the block, which goes last.
    Take(u32, u8, Result<u32, TakeFault>),
    /// The core and the place of the block.
    Give(u32, usize),
    /// The place of the block, and the first frames of its halves, which go last.
    Split(usize, Option<(u32, u32)>),
}

const NONE: Result<u32, TakeFault> = Err(TakeFault::NoBlock);

fn take_into(
    allocator: &mut PlainAllocator,
    blocks: &mut Vec<PlainBlock>,
    core: u32,
    order: u8,
) -> Result<Result<u32, TakeFault>, Fault>
    requires core { core < allocator.old.geometry.cores }
    requires same { IsPermutation blocks.old.items allocator.old.out }
    ensures cores { allocator.new.geometry.cores ≡ allocator.old.geometry.cores }
    ensures same { OnOk result (IsPermutation blocks.new.items allocator.new.out) }
{
    match allocator.take(core, order) {
        Ok(block) => {
            let frame = block.frame();
            blocks.push(block)?;
            Ok(Ok(frame))
        }
        Err(fault) => Ok(Err(fault)),
    }
}

fn give_from(allocator: &mut PlainAllocator, blocks: &mut Vec<PlainBlock>, core: u32, place: usize)
    requires core { core < allocator.old.geometry.cores }
    requires same { IsPermutation blocks.old.items allocator.old.out }
    requires place { place < vec_len blocks.old }
    ensures cores { allocator.new.geometry.cores ≡ allocator.old.geometry.cores }
    ensures same { IsPermutation blocks.new.items allocator.new.out }
{
    let block = blocks.remove(place);
    allocator.give(core, block);
}

fn split_from(
    allocator: &mut PlainAllocator,
    blocks: &mut Vec<PlainBlock>,
    place: usize,
) -> Result<Option<(u32, u32)>, Fault>
    requires core { 0 < allocator.old.geometry.cores }
    requires same { IsPermutation blocks.old.items allocator.old.out }
    requires place { place < vec_len blocks.old }
    ensures cores { allocator.new.geometry.cores ≡ allocator.old.geometry.cores }
    ensures same { OnOk result (IsPermutation blocks.new.items allocator.new.out) }
{
    let block = blocks.remove(place);
    match allocator.split(0, block) {
        Ok((lower, upper)) => {
            let frames = (lower.frame(), upper.frame());
            blocks.push(lower)?;
            blocks.push(upper)?;
            Ok(Some(frames))
        }
        Err(block) => {
            blocks.push(block)?;
            Ok(None)
        }
    }
}

// Does the call answer so?
fn answers_so(
    allocator: &mut PlainAllocator,
    blocks: &mut Vec<PlainBlock>,
    cores: u32,
    ask: Ask,
) -> Result<bool, Fault>
    requires cores { allocator.old.geometry.cores ≡ cores }
    requires same { IsPermutation blocks.old.items allocator.old.out }
    ensures cores { allocator.new.geometry.cores ≡ cores }
    ensures same { OnOk result (IsPermutation blocks.new.items allocator.new.out) }
{
    match ask {
        Ask::Take(core, order, want) => {
            if core >= cores {
                return Ok(false);
            }
            Ok(take_into(allocator, blocks, core, order)? == want)
        }
        Ask::Give(core, place) => {
            if core >= cores || place >= blocks.len() {
                return Ok(false);
            }
            give_from(allocator, blocks, core, place);
            Ok(true)
        }
        Ask::Split(place, want) => {
            if cores == 0 || place >= blocks.len() {
                return Ok(false);
            }
            Ok(split_from(allocator, blocks, place)? == want)
        }
    }
}

// The image that the calls leave, if each answers as it is to.
fn image_after(alloc: Global, geometry: Geometry, asks: &[Ask]) -> Result<Image, Fail> {
    let mut allocator = PlainAllocator::open(alloc, geometry)?;
    let mut blocks = Vec::new(alloc);
    for ask in asks {
        if !answers_so(&mut allocator, &mut blocks, geometry.cores(), *ask)? {
            return Err(Fail::from("another answer"));
        }
    }
    match allocator.close(alloc) {
        Ok(image) => Ok(image),
        Err(_) => Err(Fail::from("no memory")),
    }
}

// How many frames the words of an image hold, and how many its trees count as free or rest with a
// core.
pub(super) fn held_and_free(image: &Image) -> (u32, u32) {
    let mut held = 0u32;
    let mut free = 0u32;
    for child in 0..image.geometry().children() {
        if image.huge(child) {
            held = held.saturating_add(512);
        }
        for word in 0..8 {
            held = held.saturating_add(image.word(child, word).count_ones());
        }
    }
    for tree in 0..image.geometry().trees() {
        free = free.saturating_add(image.tree_free(tree));
    }
    for core in 0..image.geometry().cores() {
        if let Some((_tree, resting)) = image.local_at(core) {
            free = free.saturating_add(resting);
        }
    }
    (held, free)
}

// How many children there are, the calls, and the words that they leave of the last child.
#[derive(Clone, Copy)]
struct Run<'a> {
    children: u32,
    asks: &'a [Ask],
    after: Words,
}

// Checks the answers and the words of each run.
fn are_answered(rt: &impl Abort, alloc: Global, runs: &[Run]) -> Result<(), Fail> {
    for run in runs {
        let image = image_after(alloc, Geometry::new(run.children, 1)?, run.asks)?;
        let after = words_of(&image, run.children.saturating_sub(1))?;
        assert!(rt; after == run.after);
    }
    Ok(())
}

// A child whose tree the core has reserved.
fn reserved(entry: (u32, bool), rest: u32, bits: [u64; 8]) -> Words {
    Words {
        entry,
        tree: (0, true),
        rest: Some((0, rest)),
        bits,
    }
}

#[test]
fn blocks_are_taken_and_given(rt: HostRuntime) -> Result<(), Fail> {
    let one = [Ask::Take(0, 0, Ok(0))];
    let aligned = [one[0], Ask::Take(0, 3, Ok(8)), Ask::Take(0, 0, Ok(1))];
    // The refused take puts the reservation back first.
    let no_huge_frame = [
        one[0],
        Ask::Take(0, 6, Ok(64)),
        Ask::Take(0, 7, Ok(128)),
        Ask::Take(0, 8, Ok(256)),
        Ask::Take(0, 9, NONE),
        Ask::Take(0, 0, Ok(1)),
    ];
    let again = [
        Ask::Take(0, 9, Ok(0)),
        Ask::Take(0, 0, NONE),
        Ask::Give(0, 0),
        one[0],
    ];
    let next_child = [one[0], Ask::Take(0, 9, Ok(512))];
    let full = u64::MAX;
    let runs = [
        Run {
            children: 1,
            asks: &one,
            after: reserved((511, false), 511, [1, 0, 0, 0, 0, 0, 0, 0]),
        },
        Run {
            children: 1,
            asks: &aligned,
            after: reserved((502, false), 502, [0xff03, 0, 0, 0, 0, 0, 0, 0]),
        },
        Run {
            children: 1,
            asks: &no_huge_frame,
            after: reserved(
                (62, false),
                62,
                [3, full, full, full, full, full, full, full],
            ),
        },
        Run {
            children: 1,
            asks: &again,
            after: reserved((511, false), 511, [1, 0, 0, 0, 0, 0, 0, 0]),
        },
        Run {
            children: 2,
            asks: &next_child,
            after: reserved((0, true), 511, [0; 8]),
        },
    ];
    are_answered(&rt, rt.alloc(), &runs)
}

// The upper half of a huge frame is given; both frames of a pair are, and then all is one block again.
#[test]
fn blocks_are_split(rt: HostRuntime) -> Result<(), Fail> {
    let half = [
        Ask::Take(0, 9, Ok(0)),
        Ask::Split(0, Some((0, 256))),
        Ask::Give(0, 1),
    ];
    let whole = [
        Ask::Take(0, 1, Ok(0)),
        Ask::Split(0, Some((0, 1))),
        Ask::Split(0, None),
        Ask::Give(0, 0),
        Ask::Give(0, 0),
        Ask::Take(0, 9, Ok(0)),
    ];
    let full = u64::MAX;
    let runs = [
        Run {
            children: 1,
            asks: &half,
            after: reserved((256, false), 256, [full, full, full, full, 0, 0, 0, 0]),
        },
        Run {
            children: 1,
            asks: &whole,
            after: reserved((0, true), 0, [0; 8]),
        },
    ];
    are_answered(&rt, rt.alloc(), &runs)
}

// Keeps a block of the order that it takes.
fn keep_one(allocator: &mut PlainAllocator, order: u8) -> Option<(u32, u8)>
    requires { 0 < allocator.old.geometry.cores }
{
    match allocator.take(0, order) {
        Ok(block) => Some(allocator.keep(0, block)),
        Err(_) => None,
    }
}

#[test]
fn a_kept_block_stays_held(rt: HostRuntime) -> Result<(), Fail> {
    let mut allocator = PlainAllocator::open(rt.alloc(), Geometry::new(1, 1)?)?;
    assert!(rt; keep_one(&mut allocator, 3) == Some((0, 3)));
    match allocator.close(rt.alloc()) {
        Ok(image) => assert!(rt; held_and_free(&image) == (8, 504)),
        Err(_) => assert!(rt; false),
    }
    Ok(())
}
