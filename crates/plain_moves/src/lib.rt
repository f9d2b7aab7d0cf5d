//! Moves over plain words: of one caller, whom nobody disturbs, and of strangers who wait beside it.
#![tactic(auto)]

mod act;
mod laws;
mod plain;

pub use act::Act;
pub use frame_model::{
    every_closing_adds_up, every_fit_is_safe, every_reopening_is_survived, every_run_fits,
    every_run_from_an_opening_fits, every_stop_is_survived,
};
pub use laws::every_write_is_read_back;
pub use plain::{PlainMoves, STRANGERS};
