//! Opening an allocator at an image of a memory that was in use before.

ghost use Rattle.std.specs.Prelude.{◌≡◌, IfOk, IfErr};
ghost use Rattle.frame_model.specs.Rebuilt.{IsRebuilt};
ghost use Rattle.frame_model.specs.Openings.{held_blocks};
ghost use Rattle.frame_table.specs.Openings.{unsealed_key};
ghost use Rattle.core_frames.specs.Cores.{IsOpened};
ghost use Rattle.core_frames.specs.Left.{left_blocks, IsSurvivorsOf};

use crate::search::trail::Start;
use crate::shared::allocator::{Allocator, Core};
use crate::shared::left_frames::LeftFrames;
use crate::shared::openings::numbered;
use crate::shared::survivors::Survivors;
use frame_core::Image;
use frame_table::open_table_at;
use frame_words::Fault;
use std::alloc::Global;

impl Allocator {
    /// An allocator at the words of an image that equals its own rebuilding, its cores, and what
    /// the image holds. Refused only for lack of memory.
    pub fn open_at(alloc: Global, image: &Image) -> Result<(Allocator, Vec<Core>, Survivors), Fault>
        requires { IsRebuilt (unsealed_key image.now.geometry) image.now.words image.now.words }
        ensures opened { IfOk result (λ r. IsOpened (unsealed_key image.now.geometry) r.0 r.1.items) }
        ensures survivors { IfOk result (λ r. IsSurvivorsOf r.0 r.2 × (left_blocks r.2
            ≡ held_blocks (unsealed_key image.now.geometry) image.now.words)) }
        ensures err { IfErr result (λ e. e ≡ Fault.NoMemory) }
    {
        Allocator::open_at_starting(alloc, image, Start::Fixed)
    }

    /// The same, with this beginning of the cores' passes over all trees.
    pub fn open_at_starting(
        alloc: Global,
        image: &Image,
        start: Start,
    ) -> Result<(Allocator, Vec<Core>, Survivors), Fault>
        requires { IsRebuilt (unsealed_key image.now.geometry) image.now.words image.now.words }
        ensures opened { IfOk result (λ r. IsOpened (unsealed_key image.now.geometry) r.0 r.1.items) }
        ensures survivors { IfOk result (λ r. IsSurvivorsOf r.0 r.2 × (left_blocks r.2
            ≡ held_blocks (unsealed_key image.now.geometry) image.now.words)) }
        ensures err { IfErr result (λ e. e ≡ Fault.NoMemory) }
    {
        let geometry = image.geometry();
        let left = LeftFrames::of(alloc, image)?;
        let (table, seats, seat) = open_table_at(alloc, image)?;
        let cores = numbered(alloc, geometry, seats, start)?;
        let survivors = Survivors {
            seat,
            geometry,
            left,
        };
        Ok((Allocator { table }, cores, survivors))
    }
}
