//! Allocators that are opened at images of memories that were in use.

ghost use Rattle.std.specs.Prelude.{IfOk, IfSome};
ghost use Rattle.std.specs.List.{All};
ghost use Rattle.core_frames.specs.Cores.{IsCoreOf};
ghost use Rattle.core_frames.specs.Left.{IsSurvivorsOf};

use super::texts::{CUT, CUT_IN_USE, spelled};
use core_frames::{Allocator, Core, Survivors};
use frame_core::{HeldBlock, Image};
use frame_image::{image_of, rebuild, reopen};
use frame_words::Fault;
use std::alloc::Global;
use std::test::Fail;

fn only_core(allocator: &Allocator, cores: &mut Vec<Core>) -> Option<Core>
    requires { All (IsCoreOf allocator.now) cores.old.items }
    ensures { IfSome result (IsCoreOf allocator.now) }
{
    let _ = allocator;
    cores.pop()
}

// An allocator at an image, its only core, and what was held.
pub(super) fn reopened(alloc: Global, image: &Image) -> Result<(Allocator, Core, Survivors), Fault>
    ensures core { IfOk result (λ r. IsCoreOf r.0 r.1) }
    ensures survivors { IfOk result (λ r. IsSurvivorsOf r.0 r.2) }
{
    let (allocator, mut cores, survivors) = reopen(alloc, image)?;
    let Some(core) = only_core(&allocator, &mut cores) else {
        return Err(Fault::MissingCores);
    };
    Ok((allocator, core, survivors))
}

// What the memory is rebuilt to once its only core is handed in.
pub(super) fn closed(alloc: Global, allocator: Allocator, core: Core) -> Result<Image, Fault>
    requires { IsCoreOf allocator core }
{
    let mut cores = Vec::with_capacity(alloc, 1)?;
    cores.push_reserved(core);
    match allocator.close(alloc, cores) {
        Ok(image) => rebuild(alloc, &image),
        Err(e) => Err(e.fault),
    }
}

// Takes of a frame, far more than there are: how many there were, the sum of their numbers, and the
// greatest one.
fn take_frames(allocator: &Allocator, core: &mut Core) -> (u32, u32, u32)
    requires { IsCoreOf allocator.now core.old }
    ensures { IsCoreOf allocator.now core.new }
{
    let (mut count, mut sum, mut last) = (0u32, 0u32, 0u32);
    for _i in 0..600u32 {
        if let Ok(block) = allocator.take(core, 0) {
            count = count.saturating_add(1);
            sum = sum.saturating_add(block.frame());
            last = last.max(block.frame());
        }
    }
    (count, sum, last)
}

// The same of the image of a text, and what is free then.
fn taken_in_all(alloc: Global, short: &str) -> Result<((u32, u32, u32), u32), Fault> {
    let text = spelled(alloc, short)?;
    let image = image_of(alloc, text.as_slice())?;
    let (allocator, mut core, _survivors) = reopened(alloc, &image)?;
    let taken = take_frames(&allocator, &mut core);
    let image = closed(alloc, allocator, core)?;
    Ok((taken, image.free(0).saturating_add(image.tree_free(0))))
}

// Each frame once: of 0 to 299 the sum is 44,850; and of all but the first four.
#[test]
fn what_is_taken_after_a_reopening_lies_inside(rt: HostRuntime) -> Result<(), Fail> {
    for (short, count, sum) in [(CUT, 300, 44_850), (CUT_IN_USE, 296, 44_844)] {
        assert!(rt; taken_in_all(rt.alloc(), short)? == ((count, sum, 299), 0));
    }
    Ok(())
}
