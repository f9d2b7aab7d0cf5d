//! A slot for one block.

use atomic_table::Perch;
use frame_table::Watch;

/// Where the right to one block rests while C holds its numbers, for any thread to fetch. Which block
/// that is stands nowhere in it: its place in a list says so.
#[derive(Drop)]
pub struct Slot {
    pub perch: Perch<(), Watch>,
}
