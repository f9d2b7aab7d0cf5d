//! An allocator with two cores.

ghost use Rattle.std.specs.Prelude.{IfOk, IfSome};
ghost use Rattle.std.specs.List.{All};
ghost use Rattle.core_frames.specs.Cores.{IsNewCore, IsCoreOf, IsOutOf};

use core_frames::{Allocator, Core};
use frame_core::Image;
use frame_table::Block;
use frame_words::{Fault, Geometry};
use std::alloc::Global;
use std::process::Abort;

// The last core of an opening.
fn next_core(allocator: &Allocator, cores: &mut Vec<Core>) -> Option<Core>
    requires { All (IsNewCore allocator.now) cores.old.items }
    ensures core { IfSome result (IsNewCore allocator.now) }
    ensures left { All (IsNewCore allocator.now) cores.new.items }
{
    let _ = allocator;
    cores.pop()
}

// An allocator with its two cores.
pub(super) fn open_for_two(alloc: Global, children: u32) -> Result<(Allocator, Core, Core), Fault>
    ensures first { IfOk result (λ r. IsNewCore r.0 r.1) }
    ensures second { IfOk result (λ r. IsNewCore r.0 r.2) }
{
    let (allocator, mut cores) = Allocator::open(alloc, Geometry::new(children, 2)?)?;
    let Some(second) = next_core(&allocator, &mut cores) else {
        return Err(Fault::MissingCores);
    };
    let Some(first) = next_core(&allocator, &mut cores) else {
        return Err(Fault::MissingCores);
    };
    Ok((allocator, first, second))
}

// The words that two cores leave.
pub(super) fn close_two(
    alloc: Global,
    allocator: Allocator,
    first: Core,
    second: Core,
) -> Result<Image, Fault>
    requires first { IsCoreOf allocator first }
    requires second { IsCoreOf allocator second }
{
    let mut cores = Vec::with_capacity(alloc, 2)?;
    cores.push_reserved(first);
    cores.push_reserved(second);
    match allocator.close(alloc, cores) {
        Ok(image) => Ok(image),
        Err(e) => Err(e.fault),
    }
}

// A block of the order.
pub(super) fn block(rt: &impl Abort, allocator: &Allocator, core: &mut Core, order: u8) -> Block
    requires { IsCoreOf allocator.now core.old }
    ensures core { IsCoreOf allocator.now core.new }
    ensures block { IsOutOf allocator.now result }
{
    let Ok(block) = allocator.take(core, order) else {
        panic!(rt; "one is free");
    };
    block
}
