//! Tables that threads share.

ghost use Rattle.std.specs.Prelude.{IfOk};
ghost use Rattle.std.specs.List.{All};
ghost use Rattle.frame_table.specs.Seats.{IsIdleSeat};

use crate::calls::{Calls, twice};
use crate::samples::{RANGES, SMALL};
use frame_core::Image;
use frame_image::held_frames;
use frame_table::{
    CoreSeat, FrameTable, TableFault, close_table, open_table, open_table_at, open_table_with,
};
use frame_words::Fault;
use std::alloc::Global;

impl Calls {
    fn new_table(&mut self, alloc: Global) -> Result<(), Fault> {
        let (_, seats) = twice!(self, open_table(alloc, &SMALL))?;
        self.look(seats.len() == 1);
        Ok(())
    }

    #[tactic(auto, unfolding(frame_model::specs::Key::AreRanges))]
    fn table_with_ranges(&mut self, alloc: Global) -> Result<(), Fault> {
        let (_, seats) = twice!(self, open_table_with(alloc, &SMALL, &RANGES))?;
        self.look(seats.len() == 1);
        Ok(())
    }

    fn table_at_an_image(&mut self, alloc: Global) -> Result<(), Fault> {
        let image = self.rebuilt_image(alloc)?;
        let (_, seats, _) = twice!(self, open_table_at(alloc, &image))?;
        self.look(seats.len() == 1);
        Ok(())
    }
}

fn open(alloc: Global) -> Result<(FrameTable, Vec<CoreSeat>), Fault>
    ensures { IfOk result (λ r. All (IsIdleSeat r.0) r.1.items) }
{
    open_table(alloc, &SMALL)
}

impl Calls {
    fn image_of_table(
        &mut self,
        alloc: Global,
        table: FrameTable,
        seats: Vec<CoreSeat>,
    ) -> Result<Image, Fault>
        requires { All (IsIdleSeat table) seats.items }
    {
        match close_table(alloc, table, seats) {
            Ok(image) => Ok(image),
            Err(TableFault { table, seats, .. }) => {
                self.refuse();
                close_table(alloc, table, seats).map_err(|e| e.fault)
            }
        }
    }

    fn closed_table(&mut self, alloc: Global) -> Result<(), Fault> {
        let (table, seats) = twice!(self, open(alloc))?;
        let image = self.image_of_table(alloc, table, seats)?;
        self.look(held_frames(&image) == 0);
        Ok(())
    }

    /// Each call on tables, once.
    pub fn make_on_tables(&mut self, alloc: Global) -> Result<(), Fault> {
        self.new_table(alloc)?;
        self.table_with_ranges(alloc)?;
        self.table_at_an_image(alloc)?;
        self.closed_table(alloc)
    }
}
