//! Runs of traces of takes and gives, and the program that reads, runs and answers them.
#![tactic(auto)]

mod command;
mod desk;
mod gate;
mod image_streams;
mod laws;
mod lines;
mod many_cores;
mod many_streams;
mod merge;
mod one_core;
mod outcome;
mod program;
mod progress;
mod rounds;
mod run_desks;
mod streams;
mod transfers;

pub use gate::{Gate, OpenGate};
pub use image_streams::{rebuild_over, report_over};
pub use laws::{
    wrong_ends_are_not_told, wrong_outcomes_are_not_told, wrong_replies_are_not_told,
    wrong_texts_are_not_shown,
};
pub use many_cores::run_trace;
pub use many_streams::run_many_over;
pub use one_core::run_one;
pub use outcome::Outcome;
pub use program::run_program;
pub use streams::{Show, run_over};
pub use trace_text::{Answer, Line, Reply, Request, Trace, answers_text, parse_trace};
