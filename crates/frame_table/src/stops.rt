//! Stopping a table.

ghost use Rattle.std.specs.Prelude.{◌≡◌, IfOk, IfErr};
ghost use Rattle.frame_table.specs.Seats.{key_at, Sits};
ghost use Rattle.frame_table.specs.Stopping.{IsRoomFor, IsImageAtStop};

use crate::closings::read_words;
use crate::seats::CoreSeat;
use crate::table::FrameTable;
use frame_core::Image;
use frame_words::Fault;
use std::alloc::Global;

impl FrameTable {
    /// A list with room for all words, for a stop. Refused only for lack of memory.
    pub fn make_room(&self, alloc: Global) -> Result<Vec<u64>, Fault>
        ensures room { IfOk result (IsRoomFor (key_at self.now)) }
        ensures err { IfErr result (λ e. e ≡ Fault.NoMemory) }
    {
        let Ok(room) = Vec::with_capacity(alloc, self.grid.word_count()) else {
            return Err(Fault::NoMemory);
        };
        Ok(room)
    }

    /// The words as they are, with one seat, whatever the others have in flight: they fit some views
    /// of this memory, of which one is that of this seat, and all that it keeps is held. That blocks
    /// which are out, or which other seats keep, are held too is by the body, which writes none.
    /// Needs no memory.
    pub fn stop(self, seat: CoreSeat, room: Vec<u64>) -> Image
        requires seat { Sits self seat }
        requires room { IsRoomFor (key_at self) room }
        ensures { IsImageAtStop (key_at self) seat result }
    {
        let FrameTable { grid, geometry, .. } = self;
        let CoreSeat { seat: last } = seat;
        let words = read_words(grid.close_with(last), room);
        Image::of_words(&geometry, words)
    }
}
