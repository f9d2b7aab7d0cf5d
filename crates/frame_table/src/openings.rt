//! Opening a table.

ghost use Rattle.std.specs.Prelude.{◌≡◌, ◌-◌, ◌<◌, ◌≤◌, [], ◌∷◌, ℕ, Some, true, IfOk, IfErr};
ghost use Rattle.std.specs.Prelude.{length, vec_len, vec_capacity};
ghost use Rattle.std.specs.List.{All};
ghost use Rattle.frame_model.specs.Key.{key_of, sealed_key, most_ranges, AreRanges};
ghost use Rattle.frame_model.specs.View.{idle, ground_with};
ghost use Rattle.frame_model.specs.Fit.{Fit};
ghost use Rattle.frame_model.specs.Steps.{next};
ghost use Rattle.frame_model.specs.Seats.{left_by, part_share, part_ground};
ghost use Rattle.frame_model.specs.Rebuilt.{IsRebuilt};
ghost use Rattle.frame_model.specs.Openings.{held_blocks, IsSealedOpening};
ghost use Rattle.frame_table.specs.Rule.{key_from, known_in, first_view};
ghost use Rattle.frame_table.specs.Seats.{key_at, id_of, view_of, KnowsAll, Sits, IsSeat};
ghost use Rattle.frame_table.specs.Openings.{unsealed_key, moved, ground_view};
ghost use Rattle.frame_table.specs.Openings.{IsNew, IsOpenedAt, IsGround};

use crate::ground_seat::GroundSeat;
use crate::rule::{Origin, Watch};
use crate::seats::CoreSeat;
use crate::steps::cut_seat;
use crate::table::FrameTable;
use atomic_table::{Seat, Table};
use frame_core::{FrameBlock, Image};
use frame_words::{Fault, Geometry};
use std::alloc::Global;
use std::marker::Brand;
use std::snapshot::Snapshot;

/// Opens a table at the words of an image that equals its own rebuilding: one idle seat for each
/// core, in order, and what the image holds. Refused only for lack of memory.
pub fn open_table_at(
    alloc: Global,
    image: &Image,
) -> Result<(FrameTable, Vec<CoreSeat>, GroundSeat), Fault>
    requires { IsRebuilt (unsealed_key image.now.geometry) image.now.words image.now.words }
    ensures opened { IfOk result (λ r. IsOpenedAt (unsealed_key image.now.geometry) r.0 r.1.items) }
    ensures ground_seat { IfOk result (λ r. IsGround r.0 r.2) }
    ensures held { IfOk result (λ r. ground_view r.2
        ≡ ground_with (unsealed_key image.now.geometry)
        (held_blocks (unsealed_key image.now.geometry) image.now.words)) }
    ensures err { IfErr result (λ e. e ≡ Fault.NoMemory) }
{
    let none = Vec::new(alloc);
    let origin = Origin {
        image: Snapshot::of(image),
        ranges: Snapshot::of(&none),
        sealed: false,
    };
    let cores = image.geometry().cores() as usize;
    let Ok(seats) = Vec::with_capacity(alloc, cores) else {
        return Err(Fault::NoMemory);
    };
    let (table, mut seat) = open_words(alloc, image, origin)?;
    let held = part_ground_off(&table, &mut seat);
    let seats = deal(&table, seat, seats);
    Ok((table, seats, held))
}

/// Opens a table of a memory of which no frame is held but those past the end: one idle seat for
/// each core, in order. Refused only for lack of memory.
pub fn open_table(alloc: Global, geometry: &Geometry) -> Result<(FrameTable, Vec<CoreSeat>), Fault>
    ensures opened { IfOk result (λ r. IsOpenedAt (key_of geometry.now) r.0 r.1.items) }
    ensures err { IfErr result (λ e. e ≡ Fault.NoMemory) }
{
    open_table_with(alloc, geometry, &[])
}

/// The same, and the frames of the ranges are never given out: they are held from the opening on.
/// A range is its first frame and how many frames it has; they ascend and do not overlap.
pub fn open_table_with(
    alloc: Global,
    geometry: &Geometry,
    ranges: &[(u32, u32)],
) -> Result<(FrameTable, Vec<CoreSeat>), Fault>
    requires ranges { AreRanges 0 geometry.now.frames ranges.now }
    requires few { length ranges.now ≤ most_ranges }
    ensures opened { IfOk result (λ r. IsOpenedAt (sealed_key geometry.now ranges.now) r.0 r.1.items) }
    ensures err { IfErr result (λ e. e ≡ Fault.NoMemory) }
{
    let image = Image::with_ranges(alloc, geometry, ranges)?;
    open_sealed(alloc, &image, ranges)
}

// At the words of an image that holds just the frames past the end and those of the ranges.
fn open_sealed(
    alloc: Global,
    image: &Image,
    ranges: &[(u32, u32)],
) -> Result<(FrameTable, Vec<CoreSeat>), Fault>
    requires ranges { AreRanges 0 image.now.geometry.frames ranges.now }
    requires few { length ranges.now ≤ most_ranges }
    requires opens { IsSealedOpening (sealed_key image.now.geometry ranges.now) image.now.words }
    ensures opened { IfOk result (λ r. IsOpenedAt
        (sealed_key image.now.geometry ranges.now) r.0 r.1.items) }
    ensures err { IfErr result (λ e. e ≡ Fault.NoMemory) }
{
    let Ok(kept_back) = Vec::from_slice(alloc, ranges) else {
        return Err(Fault::NoMemory);
    };
    let origin = Origin {
        image: Snapshot::of(image),
        ranges: Snapshot::of(&kept_back),
        sealed: true,
    };
    let cores = image.geometry().cores() as usize;
    let Ok(seats) = Vec::with_capacity(alloc, cores) else {
        return Err(Fault::NoMemory);
    };
    let (table, seat) = open_words(alloc, image, origin)?;
    let seats = deal(&table, seat, seats);
    Ok((table, seats))
}

// The one seat of a table with the image's words.
fn open_words(
    alloc: Global,
    image: &Image,
    origin: Origin,
) -> Result<(FrameTable, Seat<(), Watch>), Fault>
    requires origin { origin.image.value ≡ image.now }
    requires fits { Fit (key_from origin) (key_from origin).cores image.now.words
        (first_view origin ∷ []) }
    requires about { (first_view origin).about ≡ Some (key_from origin) }
    ensures key { IfOk result (λ r. key_at r.0 ≡ key_from origin) }
    ensures seat { IfOk result (λ r. IsSeat (id_of r.0) (key_at r.0) r.1.table_id r.1.me) }
    ensures view { IfOk result (λ r. r.1.me.0.view ≡ first_view origin) }
    ensures knows { IfOk result (λ r. KnowsAll (known_in r.1.me.0)) }
    ensures err { IfErr result (λ e. e ≡ Fault.NoMemory) }
{
    let Ok((grid, seat)) = Table::of_words(alloc, image.words(), &origin) else {
        return Err(Fault::NoMemory);
    };
    Ok((FrameTable::of(grid, image.geometry()), seat))
}

// A seat for each core, from the one seat.
fn deal(table: &FrameTable, mut seat: Seat<(), Watch>, mut seats: Vec<CoreSeat>) -> Vec<CoreSeat>
    requires seat { IsSeat (id_of table.now) (key_at table.now) seat.table_id seat.me }
    requires view { (first : ℕ) × ((first ≤ 1)
        × (seat.me.0.view ≡ moved first (idle (key_at table.now) (key_at table.now).cores))) }
    requires knows { KnowsAll (known_in seat.me.0) }
    requires room { (seats.items ≡ []) × ((key_at table.now).cores ≤ vec_capacity seats) }
    ensures count { vec_len result ≡ (key_at table.now).cores }
    ensures new { All (IsNew table.now) result.items }
{
    for _core in 0..table.geometry.cores - 1 {
        seats.push_reserved(part_share_off(table, &mut seat));
    }
    seats.push_reserved(CoreSeat { seat });
    seats
}

pub(crate) fn part_share_off(table: &FrameTable, seat: &mut Seat<(), Watch>) -> CoreSeat
    requires seat { IsSeat (id_of table.now) (key_at table.now) seat.old.table_id seat.old.me }
    requires many { 1 < seat.old.me.0.view.share }
    ensures seat { IsSeat (id_of table.now) (key_at table.now) seat.new.table_id seat.new.me }
    ensures view { seat.new.me.0.view ≡ left_by next (part_share 1) seat.old.me.0.view }
    ensures new { Sits table.now result × (view_of result ≡ idle (key_at table.now) 1) }
{
    let nothing = FrameBlock { frame: 0, order: 0 };
    let seat = cut_seat::<Brand>(table, seat, nothing);
    CoreSeat { seat }
}

fn part_ground_off(table: &FrameTable, seat: &mut Seat<(), Watch>) -> GroundSeat
    requires seat { IsSeat (id_of table.now) (key_at table.now) seat.old.table_id seat.old.me }
    requires share { 0 < seat.old.me.0.view.share }
    requires holds { seat.old.me.0.view.is_ground ≡ true }
    ensures seat { IsSeat (id_of table.now) (key_at table.now) seat.new.table_id seat.new.me }
    ensures view { seat.new.me.0.view ≡ left_by next part_ground seat.old.me.0.view }
    ensures knows { known_in seat.new.me.0 ≡ known_in seat.old.me.0 }
    ensures held { IsGround table.now result
        × (ground_view result ≡ ground_with (key_at table.now) seat.old.me.0.view.kept) }
{
    let nothing = FrameBlock { frame: 0, order: 0 };
    let seat = cut_seat::<Brand>(table, seat, nothing);
    GroundSeat { seat }
}
