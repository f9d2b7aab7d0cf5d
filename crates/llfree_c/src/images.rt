//! The numbers of an image, as C keeps them: nine for each child, its entry and its bit words.

ghost use Rattle.std.specs.Prelude.{◌≡◌, ℕ, ◌+◌, ◌*◌, ◌<◌, ◌≤◌, List, length, slice_index};
ghost use Rattle.frame_core.specs.Image.{key_in};
ghost use Rattle.llfree_c.specs.Images.{image_words, SaysOfChild, SaysAll, StaysBehind};
ghost use Rattle.frame_slots.specs.Numbers.{most_frames};
ghost use Rattle.frame_zones.specs.Spans.{most_zones};
ghost use Rattle.zone_slots.specs.ImageParts.{image_numbers_of};
ghost use Rattle.zone_slots.specs.Layouts.{Stretch, AreEven, MayBeLaidOut};

use frame_core::Image;
use frame_slots::CHILD_NUMBERS;
use frame_words::{CHILD_FRAMES, CHILD_WORDS, MOST_FRAMES, entry};
use frame_zones::MOST_ZONES;

/// How many numbers the image of so many frames has, in one zone or in even ones; none where there is no
/// such memory.
#[unsafe(no_mangle)]
pub extern "C" fn llfree_image_words(frames: u32) -> usize
    ensures some { frames ≤ most_frames * most_zones → result ≡ image_words frames }
    ensures none { most_frames * most_zones < frames → result ≡ 0 }
    ensures zones { (zones : List Stretch) → AreEven frames zones → MayBeLaidOut zones
        → result ≡ image_numbers_of zones }
{
    if frames > MOST_FRAMES * MOST_ZONES as u32 {
        return 0;
    }
    CHILD_NUMBERS * frames.div_ceil(CHILD_FRAMES) as usize
}

/// Writes the numbers of the image; what lies behind them stays.
pub(crate) fn write_numbers(image: &Image, numbers: &mut [u64])
    requires { 9 * image.now.geometry.children ≤ length numbers.old }
    ensures written { SaysAll (key_in image.now) image.now.words numbers.new }
    ensures behind { StaysBehind (9 * image.now.geometry.children) numbers.old numbers.new }
{
    let geometry = image.geometry();
    for child in 0..geometry.children {
        write_child(image, child, numbers);
    }
}

fn write_child(image: &Image, child: u32, numbers: &mut [u64])
    requires child { child < image.now.geometry.children }
    requires room { 9 * child + 9 ≤ length numbers.old }
    ensures written { SaysOfChild (key_in image.now) image.now.words child numbers.new }
    ensures below { (i : ℕ) → i < 9 * child
        → slice_index numbers.new i ≡ slice_index numbers.old i }
    ensures behind { StaysBehind (9 * child + 9) numbers.old numbers.new }
{
    let first = CHILD_NUMBERS * child as usize;
    numbers[first] = entry(image.free(child), image.huge(child));
    for word in 0..CHILD_WORDS {
        numbers[first + 1 + word as usize] = image.word(child, word);
    }
}
