//! Opening an allocator.

ghost use Rattle.std.specs.Prelude.{◌≡◌, ◌≤◌, IfOk, IfErr, vec_len, map};
ghost use Rattle.frame_model.specs.Key.{key_of, sealed_key};
ghost use Rattle.core_frames.specs.Cores.{seat_of, AreNumbered, IsOpened};
ghost use Rattle.core_frames.specs.Ranges.{IsUnopenedFor, MayHoldBack};

use crate::ranges::may_hold_back;
use crate::search::habit::Habit;
use crate::search::trail::Start;
use crate::shared::allocator::{Allocator, Core};
use frame_table::{CoreSeat, open_table_with};
use frame_words::{Fault, Geometry};
use std::alloc::Global;

impl Allocator {
    /// An allocator of a memory of which no frame is held but those past the end, and its cores.
    /// Refused only for lack of memory.
    pub fn open(alloc: Global, geometry: Geometry) -> Result<(Allocator, Vec<Core>), Fault>
        ensures opened { IfOk result (λ r. IsOpened (key_of geometry) r.0 r.1.items) }
        ensures err { IfErr result (λ e. e ≡ Fault.NoMemory) }
    {
        Allocator::open_with(alloc, geometry, &[])
    }

    /// The same, but the frames of the ranges are held from the opening on, and never given out. A
    /// range is its first frame and how many frames it has. Refused as `BadRange`, else for want of
    /// memory.
    pub fn open_with(
        alloc: Global,
        geometry: Geometry,
        ranges: &[(u32, u32)],
    ) -> Result<(Allocator, Vec<Core>), Fault>
        ensures opened { IfOk result (λ r. IsOpened (sealed_key geometry ranges.now) r.0 r.1.items) }
        ensures lawful { IfOk result (λ r. MayHoldBack geometry ranges.now) }
        ensures refused { IfErr result (IsUnopenedFor geometry ranges.now) }
    {
        Allocator::open_starting(alloc, geometry, ranges, Start::Fixed)
    }

    /// The same, with this beginning of the cores' passes over all trees. Which block a take finds may
    /// differ; no contract tells.
    pub fn open_starting(
        alloc: Global,
        geometry: Geometry,
        ranges: &[(u32, u32)],
        start: Start,
    ) -> Result<(Allocator, Vec<Core>), Fault>
        ensures opened { IfOk result (λ r. IsOpened (sealed_key geometry ranges.now) r.0 r.1.items) }
        ensures lawful { IfOk result (λ r. MayHoldBack geometry ranges.now) }
        ensures refused { IfErr result (IsUnopenedFor geometry ranges.now) }
    {
        if !may_hold_back(&geometry, ranges) {
            return Err(Fault::BadRange);
        }
        let (table, seats) = open_table_with(alloc, &geometry, ranges)?;
        let cores = numbered(alloc, geometry, seats, start)?;
        Ok((Allocator { table }, cores))
    }
}

/// A core for each seat, in order. Refused only for lack of memory.
pub(crate) fn numbered(
    alloc: Global,
    geometry: Geometry,
    seats: Vec<CoreSeat>,
    start: Start,
) -> Result<Vec<Core>, Fault>
    requires { vec_len seats ≤ geometry.cores }
    ensures seats { IfOk result (λ cores. map seat_of cores.items ≡ seats.items) }
    ensures numbers { IfOk result (λ cores. AreNumbered cores.items) }
    ensures err { IfErr result (λ e. e ≡ Fault.NoMemory) }
{
    let Ok(mut cores) = Vec::with_capacity(alloc, seats.len()) else {
        return Err(Fault::NoMemory);
    };
    let mut number = 0;
    for seat in seats {
        cores.push_reserved(Core {
            seat,
            habit: Habit::starting(geometry, number, start),
        });
        number += 1;
    }
    Ok(cores)
}
