//! Tests of `frame_words`, `frame_core`, `plain_moves`, `script_moves`, `low_frames`, `held_blocks` and
//! `core_frames` that no run of the program reaches: each call once, and takes and splits with others
//! in between.
#![tactic(auto)]

#[cfg(test)]
mod tests;
