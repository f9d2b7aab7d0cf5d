//! Tests of `frame_zones`: which zone a block is of, holes, blocks that another thread gives, refused openings, and
//! closings.
#![tactic(auto)]

#[cfg(test)]
mod tests;
