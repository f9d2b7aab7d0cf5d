//! Closing an allocator.

ghost use Rattle.std.specs.Prelude.{◌≡◌, IfOk, IfErr, vec_len, map};
ghost use Rattle.std.specs.List.{All};
ghost use Rattle.frame_model.specs.Laws.{AddsUp};
ghost use Rattle.frame_table.specs.Closing.{IsClosingOf, IsUnclosedFor};
ghost use Rattle.core_frames.specs.Cores.{memory_of, seat_of, IsCoreOf};

use crate::shared::allocator::{Allocator, Core};
use frame_core::Image;
use frame_table::{CoreSeat, Seated, close_table};
use frame_words::Fault;
use std::alloc::Global;
use std::fmt::{self, Debug, Formatter, Write};
use thiserror::Error;

/// An allocator that was not closed. It and the cores are as they were.
#[derive(Drop, Error)]
#[error("the allocator was not closed: {fault}")]
pub struct CloseFault {
    /// `MissingCores` or `NoMemory`.
    pub fault: Fault,
    pub allocator: Allocator,
    pub cores: Vec<Core>,
}

impl Debug for CloseFault {
    fn fmt<W: Write>(&self, f: &mut Formatter<W>) -> fmt::Result {
        f.debug_struct("CloseFault")
            .field("fault", &self.fault)
            .finish_non_exhaustive()
    }
}

impl Seated for Core {
    ghost use Rattle.core_frames.specs.Cores.{seat_of};

    ghost seat_of = { seat_of };

    fn into_seat(self) -> CoreSeat {
        let Core { seat, .. } = self;
        seat
    }
}

impl Allocator {
    /// The words of the memory, once all cores are handed in. All that they keep is held and apart. That
    /// blocks which are still out are held too is by the body, which writes none.
    /// Refused as `MissingCores` where a core is missing, else for lack of memory.
    pub fn close(self, alloc: Global, cores: Vec<Core>) -> Result<Image, CloseFault>
        requires { All (IsCoreOf self) cores.items }
        ensures ok { IfOk result (IsClosingOf (memory_of self) (map seat_of cores.items)) }
        ensures refused { IfErr result (λ e.
            IsUnclosedFor (memory_of self).cores (vec_len cores) e.fault) }
        ensures adds_up { IfOk result (λ image. AddsUp (memory_of self) image.words) }
        ensures same { IfErr result (λ e. (e.allocator ≡ self) × (e.cores ≡ cores)) }
    {
        close_table(alloc, self.table, cores).map_err(|e| CloseFault {
            fault: e.fault,
            allocator: Allocator { table: e.table },
            cores: e.seats,
        })
    }
}
