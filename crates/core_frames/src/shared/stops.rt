//! Stopping an allocator.

ghost use Rattle.std.specs.Prelude.{◌≡◌, IfOk, IfErr};
ghost use Rattle.core_frames.specs.Cores.{memory_of, seat_of, IsCoreOf};
ghost use Rattle.frame_table.specs.Stopping.{IsRoomFor, IsImageAtStop};

use crate::shared::allocator::{Allocator, Core};
use frame_core::Image;
use frame_words::Fault;
use std::alloc::Global;

impl Allocator {
    /// A list with room for all words, for a stop. Refused only for lack of memory.
    pub fn make_room(&self, alloc: Global) -> Result<Vec<u64>, Fault>
        ensures room { IfOk result (IsRoomFor (memory_of self.now)) }
        ensures err { IfErr result (λ e. e ≡ Fault.NoMemory) }
    {
        self.table.make_room(alloc)
    }

    /// The words of the memory as they are, from one of its cores, whatever the others are about: they
    /// fit some views of this memory, of which one is that of this core, and all that it keeps is
    /// held. That blocks which are out, or which other cores keep, are held too is by the body, which
    /// writes none. The counters leave out what cores have reserved. Needs no memory.
    pub fn stop(self, core: Core, room: Vec<u64>) -> Image
        requires core { IsCoreOf self core }
        requires room { IsRoomFor (memory_of self) room }
        ensures { IsImageAtStop (memory_of self) (seat_of core) result }
    {
        let Core { seat, .. } = core;
        self.table.stop(seat, room)
    }
}
