//! The counters of an image anew, from its bits and huge flags alone.

ghost use Rattle.std.specs.Prelude.{◌≡◌, ◌<◌, IfErr, IfOk};
ghost use Rattle.frame_words.specs.Words.{entry_word};
ghost use Rattle.frame_model.specs.Key.{tree_count};
ghost use Rattle.frame_model.specs.Words.{huge_of};
ghost use Rattle.frame_core.specs.Image.{key_in, with_child, IsImage};
ghost use Rattle.frame_model.specs.Rebuilt.{IsRebuilt, rebuilt_free};
ghost use Rattle.frame_table.specs.Openings.{unsealed_key};
ghost use Rattle.frame_image.specs.Rebuilding.{IsRebuiltBelow, RebuildsAny, RebuildsJust, rebuilt_child};

use frame_core::Image;
use frame_text::child_bits;
use frame_words::{CHILD_FRAMES, Fault};
use std::alloc::Global;

/// The image with each counter exact and nothing reserved. Flags stay, and so do bits, but those
/// of a huge frame are cleared. The stored counters are not looked at.
pub fn rebuild(alloc: Global, image: &Image) -> Result<Image, Fault>
    ensures geometry { IfOk result (λ rebuilt. rebuilt.geometry ≡ image.now.geometry) }
    ensures rebuilt { IfOk result (λ rebuilt.
        IsRebuilt (key_in image.now) image.now.words rebuilt.words) }
    ensures any { IfOk result (λ rebuilt.
        RebuildsAny image.now.geometry image.now.words rebuilt.words) }
    ensures again { IfOk result (λ rebuilt.
        RebuildsJust (key_in image.now) rebuilt.words rebuilt.words) }
    ensures opens { IfOk result (λ rebuilt.
        IsRebuilt (unsealed_key rebuilt.geometry) rebuilt.words rebuilt.words) }
    ensures fault { IfErr result (λ e. e ≡ Fault.NoMemory) }
{
    let mut rebuilt = Image::blank(alloc, &image.geometry())?;
    rebuild_children(&mut rebuilt, image);
    rebuild_trees(&mut rebuilt, image);
    Ok(rebuilt)
}

// Writes all children.
fn rebuild_children(rebuilt: &mut Image, image: &Image)
    requires geometry { rebuilt.old.geometry ≡ image.now.geometry }
    requires none { IsRebuiltBelow (key_in image.now) image.now.words rebuilt.old.words 0 0 }
    ensures geometry { rebuilt.new.geometry ≡ image.now.geometry }
    ensures all { IsRebuiltBelow (key_in image.now) image.now.words rebuilt.new.words
        image.now.geometry.children 0 }
{
    let geometry = image.geometry();
    for child in 0..geometry.children {
        rebuild_child(rebuilt, image, child);
    }
}

// Writes a child.
fn rebuild_child(rebuilt: &mut Image, image: &Image, child: u32)
    requires geometry { rebuilt.old.geometry ≡ image.now.geometry }
    requires child { child < image.now.geometry.children }
    requires in_range { IsImage (key_in image.now) image.now.words }
    ensures { rebuilt.new ≡ record rebuilt.old {
      words = with_child (key_in image.now) rebuilt.old.words child
          (entry_word (rebuilt_free (key_in image.now) image.now.words child)
          (huge_of image.now.words child))
          (rebuilt_child (key_in image.now) image.now.words child);
    } }
{
    if image.huge(child) {
        rebuilt.set_child(child, 0, true, [0; 8]);
    } else {
        let words = child_bits(image, child);
        rebuilt.set_child(child, CHILD_FRAMES - image.set_frames(child), false, words);
    }
}

// Writes what all trees count.
fn rebuild_trees(rebuilt: &mut Image, image: &Image)
    requires geometry { rebuilt.old.geometry ≡ image.now.geometry }
    requires children { IsRebuiltBelow (key_in image.now) image.now.words rebuilt.old.words
        image.now.geometry.children 0 }
    ensures geometry { rebuilt.new.geometry ≡ image.now.geometry }
    ensures all { IsRebuiltBelow (key_in image.now) image.now.words rebuilt.new.words
        image.now.geometry.children (tree_count (key_in image.now)) }
{
    let geometry = image.geometry();
    for tree in 0..geometry.trees() {
        let free = rebuilt.free_frames(tree);
        rebuilt.set_tree(tree, free, false);
    }
}
