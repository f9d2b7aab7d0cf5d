//! Opening an allocator at an image whose counters may be wrong.

ghost use Rattle.std.specs.Prelude.{◌≡◌, IfOk, IfErr};
ghost use Rattle.frame_table.specs.Openings.{unsealed_key};
ghost use Rattle.core_frames.specs.Cores.{IsOpened};
ghost use Rattle.core_frames.specs.Left.{left_blocks, IsSurvivorsOf};
ghost use Rattle.frame_image.specs.Reopening.{AreHeldOnceRebuilt, MayAdopt};

use crate::recovery::rebuild;
use core_frames::{Allocator, Core, Survivors};
use frame_core::Image;
use frame_words::Fault;
use std::alloc::Global;

/// An allocator at the words of the image once it is rebuilt, its cores, and what the image holds. What a
/// core kept at the stop or the closing that the image is of may be adopted. Refused only for lack of
/// memory.
pub fn reopen(alloc: Global, image: &Image) -> Result<(Allocator, Vec<Core>, Survivors), Fault>
    ensures opened { IfOk result (λ r. IsOpened (unsealed_key image.now.geometry) r.0 r.1.items) }
    ensures survivors { IfOk result (λ r. IsSurvivorsOf r.0 r.2) }
    ensures left { IfOk result (λ r. AreHeldOnceRebuilt image.now (left_blocks r.2)) }
    ensures kept { IfOk result (λ r. MayAdopt image.now r.0 r.2) }
    ensures err { IfErr result (λ e. e ≡ Fault.NoMemory) }
{
    let rebuilt = rebuild(alloc, image)?;
    Allocator::open_at(alloc, &rebuilt)
}
