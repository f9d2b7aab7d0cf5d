//! A shared allocator that is stopped while blocks are out and kept, each call with ample memory.

ghost use Rattle.core_frames.specs.Cores.{IsNewCore, IsCoreOf, IsOutOf};

use super::cores::{block, open_for_two};
use super::plain::held_and_free;
use core_frames::{Allocator, Core, Desk, Label};
use frame_core::{HeldBlock, Image};
use frame_table::Block;
use std::alloc::Global;
use std::process::Abort;
use std::test::Fail;

// A block of the order that a desk took and let go of again, and the core of that desk.
fn lifted(
    rt: &impl Abort,
    alloc: Global,
    allocator: &Allocator,
    core: Core,
    order: u8,
) -> (Block, Core)
    requires { IsNewCore allocator.now core }
    ensures block { IsOutOf allocator.now result.0 }
    ensures core { IsCoreOf allocator.now result.1 }
{
    let label = Label::of(b"a").expect(rt, "a label");
    let mut desk = Desk::new(alloc, core);
    let Ok(_taken) = desk.take(allocator, label.again(), order) else {
        panic!(rt; "one is free");
    };
    let Ok(block) = desk.lift(allocator, &label) else {
        panic!(rt; "the desk holds it");
    };
    (block, desk.finish())
}

// The frame lies in one of the blocks.
fn lies_in(frame: u32, blocks: [(u32, u8); 3]) -> bool {
    for (first, order) in blocks {
        if order <= 9 && frame >> order == first >> order {
            return true;
        }
    }
    false
}

// Just the frames of these blocks are held.
fn holds_just(image: &Image, blocks: [(u32, u8); 3]) -> bool {
    for child in 0..image.geometry().children() {
        for place in 0..512u32 {
            let bit = image.word(child, place / 64) >> (place % 64) & 1;
            let frame = child.saturating_mul(512).saturating_add(place);
            if (image.huge(child) || bit == 1) != lies_in(frame, blocks) {
                return false;
            }
        }
    }
    true
}

#[test]
fn a_stop_holds_just_what_is_out_and_kept(rt: HostRuntime) -> Result<(), Fail> {
    for order in 0..10u8 {
        let (allocator, mut first, second) = open_for_two(rt.alloc(), 8)?;
        let back = block(&rt, &allocator, &mut first, order);
        let out = block(&rt, &allocator, &mut first, order);
        let (loose, _second) = lifted(&rt, rt.alloc(), &allocator, second, order);
        let other = block(&rt, &allocator, &mut first, order);
        let kept = allocator.keep(&mut first, other);
        allocator.give(&mut first, back);
        let room = allocator.make_room(rt.alloc())?;
        let image = allocator.stop(first, room);
        let blocks = [
            (out.frame(), out.order()),
            (loose.frame(), loose.order()),
            kept,
        ];
        assert!(rt; (out.order(), loose.order(), kept.1) == (order, order, order));
        assert!(rt; held_and_free(&image).0 == 3 << order);
        assert!(rt; holds_just(&image, blocks));
    }
    Ok(())
}
