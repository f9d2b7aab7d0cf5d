//! The worked values of the words, the masks and the searches, and the text of each refusal.

use frame_words::{
    Fault, Geometry, TakeFault, entry, entry_free, entry_huge, find_run, find_words, lane, local,
    local_of, mask, tree, tree_free, tree_reserved, with_lane,
};
use std::test::Fail;

// The text of each refusal.
const TEXTS: [(Fault, &str); 12] = [
    (Fault::BadGeometry, "bad geometry"),
    (Fault::NoMemory, "no memory"),
    (Fault::BadOrder, "bad order"),
    (Fault::NoBlock, "no block"),
    (Fault::Contended, "contended"),
    (Fault::NotHeld, "not held"),
    (Fault::MissingCores, "missing cores"),
    (
        Fault::BadTrace { line: 1000001 },
        "bad trace at record 1000001",
    ),
    (Fault::ReadFailed, "read failed"),
    (Fault::WriteFailed, "write failed"),
    (Fault::BadImage { line: 3 }, "bad image at record 3"),
    (Fault::BadRange, "bad range"),
];

#[test]
fn each_fault_has_its_text(rt: HostRuntime) -> Result<(), Fail> {
    for (fault, text) in &TEXTS {
        assert!(rt; fault.to_string(rt.alloc())?.as_str() == *text);
    }
    Ok(())
}

#[test]
fn each_refusal_of_a_take_is_a_fault(rt: HostRuntime) -> Result<(), Fail> {
    let refusals = [
        (TakeFault::BadOrder, "bad order"),
        (TakeFault::NoBlock, "no block"),
        (TakeFault::Contended, "contended"),
    ];
    for (fault, text) in refusals {
        assert!(rt; fault.to_string(rt.alloc())?.as_str() == text);
        assert!(rt; Fault::from(fault).to_string(rt.alloc())?.as_str() == text);
    }
    Ok(())
}

#[test]
fn a_machine_has_more_cores_than_a_text(rt: HostRuntime) {
    for (cores, in_a_text, in_a_machine) in [
        (0, false, false),
        (1, true, true),
        (64, true, true),
        (65, false, true),
        (1024, false, true),
        (1025, false, false),
    ] {
        assert!(rt; Geometry::new(1, cores).is_ok() == in_a_text, "{cores}");
        assert!(rt;
            Geometry::with_frames(1, cores, 300).is_ok() == in_a_text,
            "{cores}"
        );
        assert!(rt;
            Geometry::for_machine(1, cores, 300).is_ok() == in_a_machine,
            "{cores}"
        );
    }
}

#[test]
fn entries_and_trees_have_their_layouts(rt: HostRuntime) {
    assert!(rt; (entry(512, false), entry(0, true)) == (512, 32768));
    assert!(rt; (entry_free(511), entry_huge(512), entry_huge(32768)) == (511, false, true));
    assert!(rt; tree(1, true) == 32769);
    assert!(rt; (tree_free(32769), tree_reserved(32769)) == (1, true));
}

#[test]
fn cores_have_their_layout(rt: HostRuntime) {
    assert!(rt; (local(None), local(Some((1, 3584)))) == (0, 9223372041149746688));
    assert!(rt; (local_of(0), local_of(0x8000_0001_0000_0e00)) == (None, Some((1, 3584))));
}

#[test]
fn four_entries_share_a_word(rt: HostRuntime) {
    let word = with_lane(with_lane(0, 0, 511), 1, 512);
    let word = with_lane(with_lane(word, 2, 32768), 3, 0);
    assert!(rt; (word, lane(word, 6)) == (140737521910271, 32768));
    assert!(rt; with_lane(word, 5, 0) == 0x0000_8000_0000_01ff);
}

#[test]
fn the_lowest_clear_run_is_found(rt: HostRuntime) {
    assert!(rt; (mask(0, 0), mask(3, 8), mask(6, 0)) == (1, 0xff00, 0xffff_ffff_ffff_ffff));
    assert!(rt; (find_run(0, 6), find_run(1, 3), find_run(1, 6)) == (Some(0), Some(8), None));
    assert!(rt;
        (
            find_run(0x0000_0000_ffff_ffff, 5),
            find_run(0xffff_ffff_ffff_ffff, 0)
        ) == (Some(32), None)
    );
    let odd = 0x5555_5555_5555_5555;
    assert!(rt; (find_run(odd, 0), find_run(odd, 1)) == (Some(1), None));
}

#[test]
fn the_lowest_clear_group_is_found(rt: HostRuntime) {
    let one = [1, 0, 0, 0, 0, 0, 0, 0];
    assert!(rt; (find_words(&[0; 8], 7), find_words(&one, 7)) == (Some(0), Some(2)));
    let more = [0, 1, 2, 0, 0, 3, 0, 0];
    assert!(rt; (find_words(&one, 8), find_words(&more, 7)) == (Some(4), Some(6)));
    let ends = [0, 0, 1, 0, 0, 0, 0, 1];
    let all = [1, 0, 1, 0, 1, 0, 0, 1];
    assert!(rt; (find_words(&ends, 8), find_words(&all, 7)) == (None, None));
}
