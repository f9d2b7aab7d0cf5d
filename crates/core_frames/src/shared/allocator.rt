//! The allocator that cores share.

ghost use Rattle.std.specs.Prelude.{◌≡◌};
ghost use Rattle.core_frames.specs.Cores.{number_of};

use crate::search::habit::Habit;
use frame_table::{CoreSeat, FrameTable};

/// Gives out blocks of one memory to cores, which may work in threads of their own.
#[derive(Drop)]
pub struct Allocator {
    pub(crate) table: FrameTable,
}

/// What one thread takes and gives through. It belongs to the allocator that it was opened with.
#[derive(Drop)]
pub struct Core {
    pub(crate) seat: CoreSeat,
    pub(crate) habit: Habit,
}

impl Core {
    /// Its place among the cores of its opening.
    pub fn number(&self) -> u32
        ensures { result ≡ number_of self.now }
    {
        self.habit.core
    }
}
