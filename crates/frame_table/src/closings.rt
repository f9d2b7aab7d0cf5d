//! Closing a table.

ghost use Rattle.std.specs.Prelude.{◌≡◌, ◌<◌, ◌≤◌, [], IfOk, IfErr, vec_len, vec_capacity, map};
ghost use Rattle.std.specs.List.{All};
ghost use Rattle.std.specs.Slots.{slots_items, slots_len, IsFull};
ghost use Rattle.frame_table.specs.Seats.{key_at, id_of, IsSeat, IsIdleSeat};
ghost use Rattle.frame_table.specs.Closing.{IsGathered, IsClosingOf, IsUnclosedFor};

use crate::rule::Watch;
use crate::seated::Seated;
use crate::seats::CoreSeat;
use crate::steps::join_seat;
use crate::table::FrameTable;
use atomic_table::{Closed, Seat};
use frame_core::Image;
use frame_model::every_closing_adds_up;
use frame_words::Fault;
use std::alloc::Global;
use std::fmt::{self, Debug, Formatter, Write};
use std::marker::Brand;
use thiserror::Error;

/// A table that was not closed. It and what holds its seats are as they were.
#[derive(Drop, Error)]
#[error("the table was not closed: {fault}")]
pub struct TableFault<S> {
    /// `MissingCores` or `NoMemory`.
    pub fault: Fault,
    pub table: FrameTable,
    pub seats: Vec<S>,
}

impl<S> Debug for TableFault<S> {
    fn fmt<W: Write>(&self, f: &mut Formatter<W>) -> fmt::Result {
        f.debug_struct("TableFault")
            .field("fault", &self.fault)
            .finish_non_exhaustive()
    }
}

/// The words of a table, once the seat of every core is handed in, idle. All that the seats keep is
/// held and apart. That blocks which are still out are held too is by the body, which writes none.
/// Refused as `MissingCores` where a seat is missing, else for lack of memory.
pub fn close_table<S: Seated + Drop>(
    alloc: Global,
    table: FrameTable,
    seats: Vec<S>,
) -> Result<Image, TableFault<S>>
    requires { All (λ s. IsIdleSeat table (S.seat_of s)) seats.items }
    ensures ok { IfOk result (IsClosingOf (key_at table) (map S.seat_of seats.items)) }
    ensures refused { IfErr result (λ e. IsUnclosedFor (key_at table).cores (vec_len seats) e.fault) }
    ensures same { IfErr result (λ e. (e.table ≡ table) × (e.seats ≡ seats)) }
{
    if seats.len() < table.geometry.cores as usize {
        return Err(TableFault {
            fault: Fault::MissingCores,
            table,
            seats,
        });
    }
    let Ok(words) = Vec::with_capacity(alloc, table.grid.word_count()) else {
        return Err(TableFault {
            fault: Fault::NoMemory,
            table,
            seats,
        });
    };
    let all = gather(&table, seats);
    let FrameTable { grid, geometry, .. } = table;
    let words = read_words(grid.close_with(all), words);
    // The law on closings tells what these words say.
    every_closing_adds_up();
    Ok(Image::of_words(&geometry, words))
}

// All seats in one.
fn gather<S: Seated + Drop>(table: &FrameTable, mut seats: Vec<S>) -> Seat<(), Watch>
    requires some { 0 < vec_len seats }
    requires idle { All (λ s. IsIdleSeat table.now (S.seat_of s)) seats.items }
    ensures seat { IsSeat (id_of table.now) (key_at table.now) result.table_id result.me }
    ensures gathered { IsGathered (map S.seat_of seats.items) result.me.0.view }
{
    let Some(last) = seats.pop() else {
        unreachable!()
    };
    let CoreSeat { seat: mut all } = last.into_seat();
    while let Some(next) = seats.pop() {
        let CoreSeat { seat } = next.into_seat();
        join_seat::<Brand>(table, &mut all, seat);
    }
    all
}

// The words of a table that nobody shares any more, in a list with room for them.
pub(crate) fn read_words(closed: Closed<(), Global>, mut words: Vec<u64>) -> Vec<u64>
    requires full { IsFull closed.words × (slots_len closed.slots ≡ 0) }
    requires room { (words.items ≡ []) × (slots_len closed.words ≤ vec_capacity words) }
    ensures { result.items ≡ slots_items closed.words }
{
    let count = closed.words.len();
    for i in 0..count {
        words.push_reserved(closed.word(i));
    }
    closed.free();
    words
}
