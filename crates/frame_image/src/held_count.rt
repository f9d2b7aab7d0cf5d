//! How many frames of an image are held.

ghost use Rattle.std.specs.Prelude.{◌≡◌, ◌<◌, ◌≤◌};
ghost use Rattle.frame_words.specs.Geometry.{child_frames};
ghost use Rattle.frame_core.specs.Image.{key_in};
ghost use Rattle.frame_model.specs.Key.{frame_count};
ghost use Rattle.frame_model.specs.Report.{held_frames as the_held_frames};
ghost use Rattle.frame_model.specs.Words.{held_of};

use frame_core::Image;
use frame_words::CHILD_FRAMES;

/// The held frames of an image, from bits and huge flags alone; those past the end are among them.
pub fn held_frames(image: &Image) -> u32
    ensures value { result ≡ the_held_frames (key_in image.now) image.now.words }
    ensures limit { result ≤ frame_count (key_in image.now) }
{
    let geometry = image.geometry();
    let mut held = 0;
    for child in 0..geometry.children {
        held += held_in_child(image, child);
    }
    held
}

// The held frames of a child.
#[tactic(auto, unfolding(frame_model::specs::Words::held_of))]
fn held_in_child(image: &Image, child: u32) -> u32
    requires { child < image.now.geometry.children }
    ensures value { result ≡ held_of (key_in image.now) image.now.words child }
    ensures limit { result ≤ child_frames }
{
    let set = image.set_frames(child);
    if image.huge(child) { CHILD_FRAMES } else { set }
}
