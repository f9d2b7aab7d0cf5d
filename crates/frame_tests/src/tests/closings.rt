//! What a closing gives where a block is out.

ghost use Rattle.std.specs.Prelude.{◌≤◌};

use super::seats::{close_one, next_seat};
use crate::take_one;
use frame_core::{HeldBlock, Image};
use frame_table::open_table;
use frame_words::{Fault, Geometry};
use std::alloc::Global;
use std::test::Fail;

// What is left of a fresh child once its lowest block of the order was taken and dropped.
fn left_by_a_drop(alloc: Global, order: u8) -> Result<Image, Fault>
    requires { order ≤ 9 }
{
    let (table, mut seats) = open_table(alloc, &Geometry::new(1, 1)?)?;
    let Some(mut core) = next_seat(&table, &mut seats) else {
        return Err(Fault::MissingCores);
    };
    match take_one(&table, &mut core, 0, order) {
        Some(block) if block.frame() == 0 => drop(block),
        _ => return Err(Fault::NoBlock),
    }
    close_one(alloc, table, core)
}

// A block below order 9 is held by its bits, a huge frame by its flag.
#[test]
fn a_dropped_block_stays_held(rt: HostRuntime) -> Result<(), Fail> {
    for (order, free, is_huge, words) in [
        (0, 511, false, [1, 0, 0]),
        (3, 504, false, [0xff, 0, 0]),
        (7, 384, false, [u64::MAX, u64::MAX, 0]),
        (9, 0, true, [0, 0, 0]),
    ] {
        let image = left_by_a_drop(rt.alloc(), order)?;
        assert!(rt;
            (image.free(0), image.huge(0), image.tree_free(0)) == (free, is_huge, free),
            "order {order}"
        );
        assert!(rt;
            [image.word(0, 0), image.word(0, 1), image.word(0, 2)] == words,
            "order {order}"
        );
    }
    Ok(())
}
