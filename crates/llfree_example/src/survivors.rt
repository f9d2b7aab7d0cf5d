//! A block that a core keeps survives a stop: once the memory is opened again, this very block is adopted.

ghost use Rattle.std.specs.Prelude.{◌≡◌, IfOk, IfErr};
ghost use Rattle.frame_table.specs.Seats.{block_in};
ghost use Rattle.core_frames.specs.Cores.{IsCoreOf, IsOutOf};

use core_frames::{Allocator, Core};
use frame_core::HeldBlock;
use frame_image::reopen;
use frame_table::Block;
use frame_words::{Fault, Geometry};
use std::alloc::Global;

/// The core keeps the block, and the allocator is stopped, whatever its other cores are about. The memory is
/// opened again at the image that the stop leaves, and the block is adopted: it is never refused as not
/// held.
fn survive(
    alloc: Global,
    allocator: Allocator,
    mut core: Core,
    block: Block,
) -> Result<(Allocator, Block), Fault>
    requires core { IsCoreOf allocator core }
    requires block { IsOutOf allocator block }
    ensures out { IfOk result (λ r. IsOutOf r.0 r.1) }
    ensures same { IfOk result (λ r. block_in r.1 ≡ block_in block) }
    ensures err { IfErr result (λ e. e ≡ Fault.NoMemory) }
{
    let room = allocator.make_room(alloc)?;
    let (frame, order) = allocator.keep(&mut core, block);
    let image = allocator.stop(core, room);
    let (again, _cores, mut survivors) = reopen(alloc, &image)?;
    let Ok(adopted) = survivors.adopt(&again, frame, order) else {
        unreachable!()
    };
    Ok((again, adopted))
}

/// The first frame of a huge frame that outlived a stop.
pub(crate) fn survivor(alloc: Global) -> Result<u32, Fault> {
    let (allocator, mut cores) = Allocator::open(alloc, Geometry::new(8, 1)?)?;
    let Some(mut core) = cores.pop() else {
        return Err(Fault::MissingCores);
    };
    let Ok(block) = allocator.take(&mut core, 9) else {
        return Err(Fault::Contended);
    };
    let (_again, block) = survive(alloc, allocator, core, block)?;
    Ok(block.frame())
}
