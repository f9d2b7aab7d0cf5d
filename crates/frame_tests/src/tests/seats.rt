//! Seats of one table, and a closing once all are back.

ghost use Rattle.std.specs.Prelude.{◌<◌, IfOk, IfSome};
ghost use Rattle.std.specs.List.{All};
ghost use Rattle.frame_model.specs.Key.{tree_count};
ghost use Rattle.frame_table.specs.Seats.{key_at, IsIdleSeat};

use frame_core::Image;
use frame_table::{CoreSeat, FrameTable, close_table, open_table};
use frame_words::{Fault, Geometry};
use std::alloc::Global;

pub(super) fn next_seat(table: &FrameTable, seats: &mut Vec<CoreSeat>) -> Option<CoreSeat>
    requires idle { All (IsIdleSeat table.now) seats.old.items }
    ensures core { IfSome result (IsIdleSeat table.now) }
    ensures left { All (IsIdleSeat table.now) seats.new.items }
{
    let _ = table;
    seats.pop()
}

// A table with two seats.
pub(super) fn open_for_two(
    alloc: Global,
    children: u32,
) -> Result<(FrameTable, CoreSeat, CoreSeat), Fault>
    ensures tree { IfOk result (λ r. 0 < tree_count (key_at r.0)) }
    ensures first { IfOk result (λ r. IsIdleSeat r.0 r.1) }
    ensures second { IfOk result (λ r. IsIdleSeat r.0 r.2) }
{
    let (table, mut seats) = open_table(alloc, &Geometry::new(children, 2)?)?;
    let Some(first) = next_seat(&table, &mut seats) else {
        return Err(Fault::MissingCores);
    };
    let Some(second) = next_seat(&table, &mut seats) else {
        return Err(Fault::MissingCores);
    };
    Ok((table, first, second))
}

// The words of a table with one seat.
pub(super) fn close_one(alloc: Global, table: FrameTable, core: CoreSeat) -> Result<Image, Fault>
    requires { IsIdleSeat table core }
{
    let mut seats = Vec::with_capacity(alloc, 1)?;
    seats.push_reserved(core);
    match close_table(alloc, table, seats) {
        Ok(image) => Ok(image),
        Err(e) => Err(e.fault),
    }
}

// The words of a table with two seats.
pub(super) fn close_two(
    alloc: Global,
    table: FrameTable,
    cores: (CoreSeat, CoreSeat),
) -> Result<Image, Fault>
    requires { IsIdleSeat table cores.0 × IsIdleSeat table cores.1 }
{
    let mut seats = Vec::with_capacity(alloc, 2)?;
    seats.push_reserved(cores.0);
    seats.push_reserved(cores.1);
    match close_table(alloc, table, seats) {
        Ok(image) => Ok(image),
        Err(e) => Err(e.fault),
    }
}
