//! What no clause says.

mod calls;
mod closings;
mod memory;
mod openings;
mod pairs;
mod reopenings;
mod threads;
