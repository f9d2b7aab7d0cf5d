//! The list of labelled blocks, each call once.

use frame_core::{HeldBlock, PlainBlock};
use held_blocks::{Label, LabelledBlock, LabelledBlocks};
use std::alloc::AllocError;
use std::process::Abort;
use std::test::Fail;

// Adds a block; true if no other begins at the frame.
fn adds(
    list: &mut LabelledBlocks,
    label: &Label,
    frame: u32,
    order: u8,
) -> Result<bool, AllocError> {
    list.reserve(label)?;
    if frame >= 2_097_152 || list.begins_at(frame) {
        return Ok(false);
    }
    list.add(LabelledBlock {
        label: label.again(),
        block: PlainBlock::of(frame, order),
    });
    Ok(true)
}

// Adds two blocks under the first label, and one under the second between them.
fn add_three(
    rt: &impl Abort,
    list: &mut LabelledBlocks,
    first: &Label,
    second: &Label,
) -> Result<(), AllocError> {
    assert!(rt; adds(list, first, 512, 3)?);
    assert!(rt; adds(list, second, 0, 9)?);
    assert!(rt; adds(list, first, 2_097_151, 0)?);
    assert!(rt; !adds(list, second, 512, 0)?);
    Ok(())
}

// Where the second block begins.
fn second_of(list: &LabelledBlocks) -> Option<u32> {
    if list.len() < 2 {
        return None;
    }
    Some(list.at(1).block.frame())
}

// The oldest block under a label leaves.
fn oldest(list: &mut LabelledBlocks, label: &Label) -> Option<(u32, u8)> {
    match list.remove_oldest(label) {
        Some(entry) => Some((entry.block.frame(), entry.block.order())),
        None => None,
    }
}

// A block leaves: whether it was there, under this label.
fn leaves(list: &mut LabelledBlocks, frame: u32, order: u8, label: &Label) -> bool {
    match list.remove_exact(frame, order) {
        Some(entry) => entry.label.bytes() == label.bytes(),
        None => false,
    }
}

#[test]
fn the_oldest_and_the_named_block_leave(rt: HostRuntime) -> Result<(), Fail> {
    let mut list: LabelledBlocks = LabelledBlocks::new(rt.alloc());
    let first = Label::of(b"a").expect(&rt, "a label");
    let second = Label::of(b"0123456789_-ABCD").expect(&rt, "a label");
    assert!(rt; oldest(&mut list, &first) == None);
    add_three(&rt, &mut list, &first, &second)?;
    assert!(rt; (list.len(), second_of(&list)) == (3, Some(0)));
    assert!(rt; list.begins_at(2_097_151) && !list.begins_at(513));
    assert!(rt; !leaves(&mut list, 512, 2, &first));
    assert!(rt; oldest(&mut list, &first) == Some((512, 3)));
    assert!(rt; leaves(&mut list, 2_097_151, 0, &first));
    assert!(rt; oldest(&mut list, &first) == None);
    assert!(rt; list.len() == 1);
    Ok(())
}
