//! The words of a page frame allocator as threads share them, the seats of its cores, and their
//! moves, each one atomic step.
#![tactic(auto)]

mod block;
mod closings;
mod ground_seat;
mod laws;
mod openings;
mod plays;
mod rule;
mod seated;
mod seats;
mod shared;
mod shares;
mod steps;
mod stops;
mod table;

pub use block::Block;
pub use closings::{TableFault, close_table};
pub use ground_seat::GroundSeat;
pub use laws::{shared_words_are_honest, shared_words_are_safe};
pub use openings::{open_table, open_table_at, open_table_with};
pub use rule::Watch;
pub use seated::Seated;
pub use seats::CoreSeat;
pub use shared::SharedMoves;
pub use table::FrameTable;
