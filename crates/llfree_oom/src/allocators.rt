//! Allocators for one thread and for several.

ghost use Rattle.std.specs.Prelude.{IfOk};
ghost use Rattle.std.specs.List.{All};
ghost use Rattle.core_frames.specs.Cores.{IsCoreOf};

use crate::calls::{Calls, twice};
use crate::samples::{RANGES, SMALL};
use core_frames::{Allocator, CloseFault, Core, PlainAllocator};
use frame_core::Image;
use frame_image::held_frames;
use frame_words::Fault;
use std::alloc::Global;

impl Calls {
    fn plain_allocator(&mut self, alloc: Global) -> Result<(), Fault> {
        let mut allocator = twice!(self, PlainAllocator::open(alloc, SMALL))?;
        let taken = allocator.take(0, 9);
        self.look(taken.is_ok());
        Ok(())
    }

    fn plain_allocator_with_ranges(&mut self, alloc: Global) -> Result<(), Fault> {
        let mut allocator = twice!(self, PlainAllocator::open_with(alloc, SMALL, &RANGES))?;
        let taken = allocator.take(0, 9);
        self.look(taken.is_err());
        Ok(())
    }

    fn closed_plain_allocator(&mut self, alloc: Global) -> Result<(), Fault> {
        let allocator = twice!(self, PlainAllocator::open_with(alloc, SMALL, &RANGES))?;
        let image = match allocator.close(alloc) {
            Ok(image) => image,
            Err(allocator) => {
                self.refuse();
                allocator.close(alloc).map_err(|_| Fault::NoMemory)?
            }
        };
        self.look(held_frames(&image) == 8);
        Ok(())
    }

    fn new_allocator(&mut self, alloc: Global) -> Result<(), Fault> {
        let (_, cores) = twice!(self, Allocator::open(alloc, SMALL))?;
        self.look(cores.len() == 1);
        Ok(())
    }

    fn allocator_with_ranges(&mut self, alloc: Global) -> Result<(), Fault> {
        let (_, cores) = twice!(self, Allocator::open_with(alloc, SMALL, &RANGES))?;
        self.look(cores.len() == 1);
        Ok(())
    }

    fn allocator_at_an_image(&mut self, alloc: Global) -> Result<(), Fault> {
        let image = self.rebuilt_image(alloc)?;
        let (allocator, cores, mut survivors) = twice!(self, Allocator::open_at(alloc, &image))?;
        let adopted = survivors.adopt(&allocator, 0, 1);
        self.look(cores.len() == 1 && adopted.is_ok());
        Ok(())
    }
}

fn open_with(alloc: Global) -> Result<(Allocator, Vec<Core>), Fault>
    ensures { IfOk result (λ r. All (IsCoreOf r.0) r.1.items) }
{
    Allocator::open_with(alloc, SMALL, &RANGES)
}

impl Calls {
    /// The image at the end.
    pub fn image_of_allocator(
        &mut self,
        alloc: Global,
        allocator: Allocator,
        cores: Vec<Core>,
    ) -> Result<Image, Fault>
        requires { All (IsCoreOf allocator) cores.items }
    {
        match allocator.close(alloc, cores) {
            Ok(image) => Ok(image),
            Err(
                CloseFault {
                    allocator,
                    cores,
                    ..
                },
            ) => {
                self.refuse();
                allocator.close(alloc, cores).map_err(|e| e.fault)
            }
        }
    }

    fn closed_allocator(&mut self, alloc: Global) -> Result<(), Fault> {
        let (allocator, cores) = twice!(self, open_with(alloc))?;
        let image = self.image_of_allocator(alloc, allocator, cores)?;
        self.look(held_frames(&image) == 8);
        Ok(())
    }

    /// Each call on allocators, once.
    pub fn make_on_allocators(&mut self, alloc: Global) -> Result<(), Fault> {
        self.plain_allocator(alloc)?;
        self.plain_allocator_with_ranges(alloc)?;
        self.closed_plain_allocator(alloc)?;
        self.new_allocator(alloc)?;
        self.allocator_with_ranges(alloc)?;
        self.allocator_at_an_image(alloc)?;
        self.closed_allocator(alloc)
    }
}
