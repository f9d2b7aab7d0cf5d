//! Takes beside a stranger that stopped in the middle of its call: a free block that is missed lies in
//! what the stranger withholds, and without the stranger it is found.

ghost use Rattle.std.specs.Prelude.{◌≤◌, IfOk};
ghost use Rattle.plain_moves.specs.PlainState.{IsByItself};
ghost use Rattle.core_frames.specs.Searches.{MayBegin};

use super::cues::stranger;
use super::scripted::script;
use core_frames::{Habit, take_by};
use frame_core::{HeldBlock, Image, Moves};
use frame_words::{Geometry, TakeFault, frames_of};
use plain_moves::{Act, PlainMoves};
use script_moves::Cue;
use std::alloc::Global;
use std::test::Fail;

// A free memory with one core.
fn open(alloc: Global, children: u32) -> Result<PlainMoves, Fail>
    ensures company { IfOk result IsByItself }
    ensures begins { IfOk result (λ m. MayBegin 0 (⟦<PlainMoves as Moves>⟧.at m)) }
{
    Ok(PlainMoves::new(alloc, &Geometry::new(children, 1)?)?)
}

// Stranger 1 holds these blocks, each the lowest of a child: it pays, charges and claims, and hands out.
fn holding(alloc: Global, frames: &[(u32, u8)]) -> Result<Vec<Cue>, Fail> {
    let mut cues = Vec::new(alloc);
    for (frame, order) in frames {
        let (child, tree) = (frame / 512, frame / 4096);
        if *order == 9 {
            cues.push(stranger(0, 1, Act::TreePay { tree, n: 512 }))?;
            cues.push(stranger(0, 1, Act::TakeHuge { child }))?;
        } else {
            cues.push(stranger(0, 1, Act::TreePay { tree, n: 1 }))?;
            cues.push(stranger(0, 1, Act::Charge { child, n: 1 }))?;
            cues.push(stranger(
                0,
                1,
                Act::Claim {
                    word: frame / 64,
                    mask: 1,
                },
            ))?;
        }
        cues.push(stranger(
            0,
            1,
            Act::HandOut {
                frame: *frame,
                order: *order,
            },
        ))?;
    }
    Ok(cues)
}

// A take after these acts: the first frame of its block, in how many moves, and the words afterwards.
fn take_after(
    alloc: Global,
    children: u32,
    order: u8,
    cues: &[Cue],
) -> Result<(Result<u32, TakeFault>, u64, Image), Fail> {
    let plain = open(alloc, children)?;
    let mut m = script(alloc, plain, cues)?;
    let geometry = m.geometry();
    let mut habit = Habit::of(geometry, 0);
    let answer = match take_by(&mut m, &mut habit, order) {
        Ok(block) => Ok(block.frame()),
        Err(fault) => Err(fault),
    };
    if m.skipped() != 0 {
        return Err(Fail::from("a stranger may not act so"));
    }
    Ok((answer, m.plain().moves(), m.plain().image(alloc)?))
}

fn is_free(image: &Image, frame: u32) -> bool {
    let child = frame / 512;
    child < image.geometry().children()
        && !image.huge(child)
        && image.word(child, frame / 64 % 8) >> (frame % 64) & 1 == 0
}

// How many blocks of the order are free that begin at or behind a frame, and before another.
fn free_from(image: &Image, order: u8, from: u32, to: u32) -> u32
    requires { order ≤ 9 }
{
    let mut free = 0u32;
    let size = frames_of(order);
    for i in from / size..to / size {
        let first = i.saturating_mul(size);
        let mut is_whole = true;
        for j in 0..size {
            is_whole &= is_free(image, first.saturating_add(j));
        }
        if is_whole {
            free = free.saturating_add(1);
        }
    }
    free
}

// Of nine children the eight of the first tree are huge frames in use, and the last is free; or of two
// children the second has a frame in use. A stranger paid a frame of the last tree, or is reserving it, or
// charged a frame of the first child.
#[test]
fn what_a_take_misses_is_withheld(rt: HostRuntime) -> Result<(), Fail> {
    let alloc = rt.alloc();
    let tree = [
        (0, 9),
        (512, 9),
        (1024, 9),
        (1536, 9),
        (2048, 9),
        (2560, 9),
        (3072, 9),
        (3584, 9),
    ];
    let pays = [Act::TreePay { tree: 1, n: 1 }];
    let reserves = [Act::Reserve { tree: 1 }];
    let charges = [
        Act::TreePay { tree: 0, n: 1 },
        Act::Charge { child: 0, n: 1 },
    ];
    // the children, the order, what is in use, what the stranger did, the moves, the frames that it
    // withholds, and how many blocks of the order are free
    for (children, order, held, acts, moves, from, to, free) in [
        (9, 9, &tree[..], &pays[..], 8, 4096, 8192, 1),
        (9, 0, &tree[..], &reserves[..], 8, 4096, 8192, 512),
        (2, 9, &[(512, 0)][..], &charges[..], 13, 0, 512, 1),
    ] {
        let mut cues = holding(alloc, held)?;
        let (answer, ..) = take_after(alloc, children, order, &cues)?;
        assert!(rt; answer == Ok(from), "{children} {order}");
        for act in acts {
            cues.push(stranger(0, 0, *act))?;
        }
        let (answer, made, image) = take_after(alloc, children, order, &cues)?;
        assert!(rt;
            (answer, made) == (Err(TakeFault::NoBlock), moves),
            "{children} {order}"
        );
        assert!(rt;
            free_from(&image, order, from, to) == free,
            "{children} {order}"
        );
        assert!(rt;
            free_from(&image, order, 0, 512 * children) == free,
            "{children} {order}"
        );
    }
    Ok(())
}
