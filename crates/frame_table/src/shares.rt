//! The shares of cores, which come together in one seat and leave it again.

ghost use Rattle.std.specs.Prelude.{◌≡◌, ◌<◌, ◌≤◌};
ghost use Rattle.frame_model.specs.View.{idle};
ghost use Rattle.frame_model.specs.Steps.{after_load, next};
ghost use Rattle.frame_model.specs.Seats.{join_idle, joined_by, left_by, part_share};
ghost use Rattle.frame_table.specs.Seats.{key_at, words_known_by, view_of, KnowsAll, IsIdleSeat};

use crate::openings::part_share_off;
use crate::seats::CoreSeat;
use crate::steps::join_seat;
use crate::table::FrameTable;
use std::marker::Brand;

impl CoreSeat {
    /// Takes in the seat of another core, with its shares and what it keeps and lends.
    pub fn gather(&mut self, table: &FrameTable, other: CoreSeat)
        requires seat { IsIdleSeat table.now self.old }
        requires other { IsIdleSeat table.now other }
        ensures seat { IsIdleSeat table.now self.new }
        ensures view { view_of self.new
            ≡ joined_by next join_idle (view_of self.old) (view_of other) }
    {
        join_seat::<Brand>(table, &mut self.seat, other.seat);
    }

    /// Looks at a word: by that step the seat knows all words.
    pub fn learn(&mut self, table: &FrameTable)
        requires { IsIdleSeat table.now self.old }
        ensures seat { IsIdleSeat table.now self.new }
        ensures view { view_of self.new ≡ after_load next (view_of self.old) }
        ensures knows { KnowsAll (words_known_by self.new) }
        ensures share { (view_of self.new).share ≤ (key_at table.now).cores }
    {
        self.load(table, 0);
    }

    /// The seat of another core, with one of the shares. It keeps and lends nothing.
    pub fn part(&mut self, table: &FrameTable) -> CoreSeat
        requires seat { IsIdleSeat table.now self.old }
        requires many { 1 < (view_of self.old).share }
        ensures seat { IsIdleSeat table.now self.new }
        ensures view { view_of self.new ≡ left_by next (part_share 1) (view_of self.old) }
        ensures part { IsIdleSeat table.now result }
        ensures one { view_of result ≡ idle (key_at table.now) 1 }
    {
        part_share_off(table, &mut self.seat)
    }
}

impl FrameTable {
    /// How many cores the memory has.
    pub fn cores(&self) -> u32
        ensures { result ≡ (key_at self.now).cores }
    {
        self.geometry.cores
    }
}
