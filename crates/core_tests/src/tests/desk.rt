//! Desks, each call with ample memory.

ghost use Rattle.std.specs.Prelude.{IfOk};
ghost use Rattle.core_frames.specs.Desks.{IsDeskOf};

use super::cores::{close_two, open_for_two};
use super::plain::held_and_free;
use core_frames::{Allocator, Desk, Label};
use frame_core::{HeldBlock, Image};
use frame_words::Fault;
use std::alloc::Global;
use std::process::Abort;
use std::test::Fail;

// An allocator with two desks.
fn open(alloc: Global, children: u32) -> Result<(Allocator, Desk, Desk), Fault>
    ensures first { IfOk result (λ r. IsDeskOf r.0 r.1) }
    ensures second { IfOk result (λ r. IsDeskOf r.0 r.2) }
{
    let (allocator, first, second) = open_for_two(alloc, children)?;
    Ok((allocator, Desk::new(alloc, first), Desk::new(alloc, second)))
}

// The words that two desks leave.
fn close(alloc: Global, allocator: Allocator, first: Desk, second: Desk) -> Result<Image, Fault>
    requires first { IsDeskOf allocator first }
    requires second { IsDeskOf allocator second }
{
    close_two(alloc, allocator, first.finish(), second.finish())
}

fn label(rt: &impl Abort, bytes: &[u8]) -> Label {
    Label::of(bytes).expect(rt, "a label")
}

// Takes a block under a label: its first frame and its order.
fn take(
    allocator: &Allocator,
    desk: &mut Desk,
    label: &Label,
    order: u8,
) -> Result<(u32, u8), Fault>
    requires { IsDeskOf allocator.now desk.old }
    ensures { IsDeskOf allocator.now desk.new }
{
    desk.take(allocator, label.again(), order)
}

// Gives the oldest block under a label.
fn give(allocator: &Allocator, desk: &mut Desk, label: &Label) -> Result<(u32, u8), Fault>
    requires { IsDeskOf allocator.now desk.old }
    ensures { IsDeskOf allocator.now desk.new }
{
    desk.give(allocator, label)
}

// Moves the oldest block under a label to the end of another desk's list, under a label there.
fn move_over(
    allocator: &Allocator,
    from: &mut Desk,
    label: &Label,
    to: &mut Desk,
    under: &Label,
) -> Result<(u32, u8), Fault>
    requires from { IsDeskOf allocator.now from.old }
    requires to { IsDeskOf allocator.now to.old }
    ensures from { IsDeskOf allocator.now from.new }
    ensures to { IsDeskOf allocator.now to.new }
{
    let block = from.lift(allocator, label)?;
    let moved = (block.frame(), block.order());
    match to.lay(allocator, under.again(), block) {
        Ok(()) => Ok(moved),
        Err(_) => Err(Fault::NoMemory),
    }
}

// Asks for a block that the desk does not hold.
fn is_not_held(rt: &impl Abort, allocator: &Allocator, desk: &mut Desk, frame: u32, order: u8)
    requires { IsDeskOf allocator.now desk.old }
    ensures { IsDeskOf allocator.now desk.new }
{
    let answer = desk.give_at(allocator, frame, order);
    assert!(rt; answer.err() == Some(Fault::NotHeld));
}

#[test]
fn a_block_moves_from_one_desk_to_another(rt: HostRuntime) -> Result<(), Fail> {
    let (allocator, mut from, mut to) = open(rt.alloc(), 8)?;
    let (a, b) = (label(&rt, b"a"), label(&rt, b"b"));
    let moved = take(&allocator, &mut from, &a, 4)?;
    let stays = take(&allocator, &mut from, &a, 4)?;
    let before = take(&allocator, &mut to, &b, 0)?;
    assert!(rt; move_over(&allocator, &mut from, &a, &mut to, &b)? == moved);
    assert!(rt; from.len() == 1);
    assert!(rt; to.len() == 2);
    let (under, frame, order) = to.at(1);
    assert!(rt; (under.bytes(), frame, order) == (b.bytes(), moved.0, moved.1));
    is_not_held(&rt, &allocator, &mut from, moved.0, moved.1);
    assert!(rt; move_over(&allocator, &mut from, &b, &mut to, &a).err() == Some(Fault::NotHeld));
    assert!(rt; give(&allocator, &mut to, &b)? == before);
    assert!(rt; give(&allocator, &mut to, &b)? == moved);
    assert!(rt; give(&allocator, &mut from, &a)? == stays);
    let image = close(rt.alloc(), allocator, from, to)?;
    assert!(rt; held_and_free(&image) == (0, 4096));
    Ok(())
}
