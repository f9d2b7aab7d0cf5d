//! Moves over plain words of one caller whom a script disturbs.
#![tactic(auto)]

mod laws;
mod script;

pub use laws::{
    a_script_is_followed, a_worked_stop_is_of_its_moment, scripts_are_honest,
    stops_are_of_their_moment,
};
pub use script::{Cue, ScriptMoves, What};
