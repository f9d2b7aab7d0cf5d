//! The work of cores in trees of one shared table, tests of it with threads, and tests of images.
#![tactic(auto)]

mod blocks;
mod pair_work;

pub use blocks::{give_one, take_one};
pub use pair_work::{pairs, pay, refund, work};

#[cfg(test)]
mod tests;
