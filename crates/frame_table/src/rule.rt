//! The rule of the shared table: between any two steps, its words and the views of all seats fit.

use atomic_table::TableRule;
use frame_core::{Image, Sighting, View};
use std::collections::LinkedList;
use std::snapshot::Snapshot;

/// What a table was opened with.
// The rule reads its key. Its words are read by the first view alone, which keeps what they hold.
#[derive(Drop)]
pub struct Origin {
    pub(crate) image: Snapshot<Image>,
    pub(crate) ranges: Snapshot<Vec<(u32, u32)>>,
    pub(crate) sealed: bool,
}

/// What a seat is known by: its view, what it has read, and all words as its last own step left them.
// No value of it is made: it stands in contracts alone.
pub struct Watch {
    pub view: View,
    /// The latest first.
    pub read: LinkedList<Sighting>,
    /// None where it took in another core's seat since, or parted a share off.
    pub known: Option<LinkedList<u64>>,
    /// It took in no seat since.
    pub settled: bool,
}

/// The words and the views fit, and who has all shares and knows words knows the right ones.
pub struct FitRule;

impl TableRule<(), Watch, Origin> for FitRule {
    ghost use Rattle.frame_table.specs.Rule.{Holds, first_eye};

    ghost holds = { Holds };

    ghost first = { first_eye };
}
