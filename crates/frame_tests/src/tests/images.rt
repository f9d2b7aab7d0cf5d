//! Images that are read, written and rebuilt.

ghost use Rattle.std.specs.Prelude.{◌≤◌};

use super::texts::{CUT, HURT, SPLIT, spelled};
use frame_core::Image;
use frame_image::{image_of, image_text, rebuild};
use frame_words::{Fault, Geometry};
use plain_moves::PlainMoves;
use std::alloc::Global;
use std::test::Fail;

// The image that a text says, rebuilt and opened for moves, as it stands before any.
fn reopened(alloc: Global, text: &[u8]) -> Result<Image, Fault> {
    let image = image_of(alloc, text)?;
    let made = rebuild(alloc, &image)?;
    let moves = PlainMoves::new_at(alloc, &made)?;
    moves.image(alloc)
}

#[test]
fn a_rebuilt_image_is_opened_again(rt: HostRuntime) -> Result<(), Fail> {
    for (before, after) in [
        (CUT, CUT),
        (
            HURT,
            "llfree,1,1,1,\nchild,0,509,0,0000000000000007ZZZZZZZ\ntree,0,509,0,\ncore,0,,,\n",
        ),
        // The bits beside a flag are cleared.
        (
            SPLIT,
            "llfree,1,1,1,\nchild,0,0,1,ZZZZZZZZ\ntree,0,0,0,\ncore,0,,,\n",
        ),
    ] {
        let text = spelled(rt.alloc(), before)?;
        let want = spelled(rt.alloc(), after)?;
        let again = reopened(rt.alloc(), text.as_slice())?;
        let written = image_text(rt.alloc(), &again)?;
        assert!(rt; written.as_slice() == want.as_slice(), "{before}");
    }
    Ok(())
}

#[test]
fn an_image_of_65_cores_has_no_text(rt: HostRuntime) -> Result<(), Fail> {
    for (cores, fault) in [
        (64, None),
        (65, Some(Fault::BadGeometry)),
        (1024, Some(Fault::BadGeometry)),
    ] {
        let image = Image::new(rt.alloc(), &Geometry::for_machine(1, cores, 512)?)?;
        assert!(rt; image_text(rt.alloc(), &image).err() == fault, "{cores}");
    }
    Ok(())
}
