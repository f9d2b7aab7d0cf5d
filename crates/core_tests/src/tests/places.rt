//! Where the words of a table stand.

use frame_core::layout;
use frame_words::Geometry;
use std::test::Fail;

// Nine children in two trees, two cores. The entries of the second tree stand a cache line behind
// those of the first.
#[test]
fn each_word_has_its_place(rt: HostRuntime) -> Result<(), Fail> {
    let geometry = Geometry::new(9, 2)?;
    assert!(rt; (layout::entry_place(0), layout::entry_place(3)) == (8, 8));
    assert!(rt; (layout::entry_place(4), layout::entry_place(7)) == (9, 9));
    assert!(rt; (layout::entry_place(8), layout::entry_place(4095)) == (16, 4097));
    assert!(rt;
        (
            layout::tree_place(geometry, 0),
            layout::tree_place(geometry, 1)
        ) == (24, 25)
    );
    assert!(rt;
        (
            layout::local_place(geometry, 0),
            layout::local_place(geometry, 1)
        ) == (33, 41)
    );
    assert!(rt;
        (
            layout::bits_place(geometry, 0),
            layout::bits_place(geometry, 71)
        ) == (49, 120)
    );
    assert!(rt; layout::word_count(geometry) == 121);
    Ok(())
}
