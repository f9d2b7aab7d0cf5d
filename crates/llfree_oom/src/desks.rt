//! Desks: a core with the list of the blocks that it holds.

ghost use Rattle.std.specs.Prelude.{IfOk, IfSome};
ghost use Rattle.std.specs.List.{All};
ghost use Rattle.core_frames.specs.Cores.{IsNewCore};
ghost use Rattle.core_frames.specs.Desks.{IsDeskOf};

use crate::calls::{Calls, twice};
use crate::samples::SMALL;
use core_frames::{Allocator, Core, Desk, Label};
use frame_words::Fault;
use std::alloc::Global;

// The last core of an opening.
fn next_core(allocator: &Allocator, cores: &mut Vec<Core>) -> Option<Core>
    requires { All (IsNewCore allocator.now) cores.old.items }
    ensures core { IfSome result (IsNewCore allocator.now) }
{
    let _ = allocator;
    cores.pop()
}

// An allocator with one desk.
fn open(alloc: Global) -> Result<(Allocator, Desk), Fault>
    ensures { IfOk result (λ r. IsDeskOf r.0 r.1) }
{
    let (allocator, mut cores) = Allocator::open(alloc, SMALL)?;
    let Some(core) = next_core(&allocator, &mut cores) else {
        return Err(Fault::MissingCores);
    };
    Ok((allocator, Desk::new(alloc, core)))
}

fn label() -> Result<Label, Fault> {
    Label::of(b"a").ok_or(Fault::NotHeld)
}

impl Calls {
    fn take_at_desk(
        &mut self,
        allocator: &Allocator,
        desk: &mut Desk,
        label: &Label,
    ) -> Result<(u32, u8), Fault>
        requires { IsDeskOf allocator.now desk.old }
        ensures { IsDeskOf allocator.now desk.new }
    {
        twice!(self, desk.take(allocator, label.again(), 3))
    }

    fn taken_under_a_label(&mut self, alloc: Global) -> Result<(), Fault> {
        let (allocator, mut desk) = twice!(self, open(alloc))?;
        let label = label()?;
        let taken = self.take_at_desk(&allocator, &mut desk, &label)?;
        self.look(taken == (0, 3) && desk.len() == 1);
        Ok(())
    }

    fn laid_under_a_label(&mut self, alloc: Global) -> Result<(), Fault> {
        let (allocator, mut desk) = twice!(self, open(alloc))?;
        let label = label()?;
        self.take_at_desk(&allocator, &mut desk, &label)?;
        let block = desk.lift(&allocator, &label)?;
        if let Err(block) = desk.lay(&allocator, label.again(), block) {
            self.refuse();
            if desk.lay(&allocator, label.again(), block).is_err() {
                return Err(Fault::NoMemory);
            }
        }
        self.look(desk.len() == 1);
        Ok(())
    }

    /// Each call on desks, once.
    pub fn make_on_desks(&mut self, alloc: Global) -> Result<(), Fault> {
        self.taken_under_a_label(alloc)?;
        self.laid_under_a_label(alloc)
    }
}
