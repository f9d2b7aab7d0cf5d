//! What no clause says.

mod batches;
mod cores;
mod cues;
mod desk;
mod lists;
mod place_takes;
mod places;
mod plain;
mod scripted;
mod shared;
mod stops;
mod tree_takes;
mod withheld;
mod words;
