//! The numbers of images that are rebuilt as they are written.

ghost use Rattle.std.specs.Prelude.{◌≡◌, ℕ, ◌+◌, ◌*◌, ◌<◌, ◌≤◌, drop, length, slice_index};
ghost use Rattle.frame_words.specs.Words.{flag, entry_word};
ghost use Rattle.frame_model.specs.Key.{key_of};
ghost use Rattle.frame_model.specs.Rebuilt.{rebuilt_free, rebuilt_bits};
ghost use Rattle.frame_model.specs.Words.{huge_of, set_of, bit_word_of, word_count};
ghost use Rattle.llfree_c.specs.CoreImages.{numbers_ahead, SaysEach, SaysImage, SaysOfRebuilt, SaysRebuilt};
ghost use Rattle.llfree_c.specs.Images.{StaysBehind};

use frame_core::Image;
use frame_core::layout::{bits_place, entry_place};
use frame_slots::CHILD_NUMBERS;
use frame_words::{CHILD_FRAMES, CHILD_WORDS, Geometry, entry, entry_huge, lane};
use frame_zones::ZoneImage;

/// Writes the numbers of each image, rebuilt, of one behind the other. What lies behind them all stays.
pub(crate) fn write_images(images: &[ZoneImage], numbers: &mut [u64])
    requires room { numbers_ahead images.now (length images.now) ≤ length numbers.old }
    ensures written { SaysEach images.now numbers.new }
    ensures behind { StaysBehind (numbers_ahead images.now (length images.now)) numbers.old numbers.new }
{
    let mut from = 0;
    for zone in images {
        from = write_image(&zone.image, from, numbers);
    }
}

// Writes those of one image from a place on, and answers the place behind them.
fn write_image(image: &Image, from: usize, numbers: &mut [u64]) -> usize
    requires room { from + 9 * image.now.geometry.children ≤ length numbers.old }
    ensures written { SaysImage image.now (drop from numbers.new) }
    ensures below { (i : ℕ) → i < from → slice_index numbers.new i ≡ slice_index numbers.old i }
    ensures behind { StaysBehind (from + 9 * image.now.geometry.children) numbers.old numbers.new }
    ensures end { result ≡ from + 9 * image.now.geometry.children }
{
    let geometry = image.geometry();
    let (_front, rest) = numbers.split_at_mut(from);
    write_rebuilt(geometry, image.words(), rest);
    from + CHILD_NUMBERS * geometry.children as usize
}

/// Writes the numbers of the image that the words are rebuilt to: each counter exact, from their bits
/// and huge flags alone. What lies behind these numbers stays.
pub(crate) fn write_rebuilt(geometry: Geometry, words: &[u64], numbers: &mut [u64])
    requires count { length words.now ≡ word_count (key_of geometry) }
    requires room { 9 * geometry.children ≤ length numbers.old }
    ensures written { SaysRebuilt (key_of geometry) words.now numbers.new }
    ensures behind { StaysBehind (9 * geometry.children) numbers.old numbers.new }
{
    for child in 0..geometry.children {
        write_child(geometry, words, child, numbers);
    }
}

fn write_child(geometry: Geometry, words: &[u64], child: u32, numbers: &mut [u64])
    requires count { length words.now ≡ word_count (key_of geometry) }
    requires child { child < geometry.children }
    requires room { 9 * child + 9 ≤ length numbers.old }
    ensures written { SaysOfRebuilt (key_of geometry) words.now child numbers.new }
    ensures below { (i : ℕ) → i < 9 * child
        → slice_index numbers.new i ≡ slice_index numbers.old i }
    ensures behind { StaysBehind (9 * child + 9) numbers.old numbers.new }
{
    let first = CHILD_NUMBERS * child as usize;
    numbers[first] = rebuilt_entry(geometry, words, child);
    for word in 0..CHILD_WORDS {
        numbers[first + 1 + word as usize] = rebuilt_word(geometry, words, child, word);
    }
}

#[tactic(auto, unfolding(frame_model::specs::Rebuilt::rebuilt_free))]
fn rebuilt_entry(geometry: Geometry, words: &[u64], child: u32) -> u64
    requires count { length words.now ≡ word_count (key_of geometry) }
    requires child { child < geometry.children }
    ensures { result ≡ entry_word (rebuilt_free (key_of geometry) words.now child) (huge_of words.now child) }
{
    if is_huge(geometry, words, child) {
        entry(0, true)
    } else {
        entry(CHILD_FRAMES - set_frames(geometry, words, child), false)
    }
}

#[tactic(auto, unfolding(frame_model::specs::Rebuilt::rebuilt_bits))]
fn rebuilt_word(geometry: Geometry, words: &[u64], child: u32, word: u32) -> u64
    requires count { length words.now ≡ word_count (key_of geometry) }
    requires child { child < geometry.children }
    requires word { word < 8 }
    ensures { result ≡ rebuilt_bits (key_of geometry) words.now (8 * child + word) }
{
    if is_huge(geometry, words, child) {
        0
    } else {
        bit_word(geometry, words, child, word)
    }
}

#[tactic(auto, unfolding(frame_model::specs::Words::huge_of, frame_model::specs::Words::entry_of))]
fn is_huge(geometry: Geometry, words: &[u64], child: u32) -> bool
    requires count { length words.now ≡ word_count (key_of geometry) }
    requires child { child < geometry.children }
    ensures { flag result ≡ huge_of words.now child }
{
    let _ = geometry;
    entry_huge(lane(words[entry_place(child)], child))
}

#[tactic(auto, unfolding(frame_model::specs::Words::bit_word_of))]
fn bit_word(geometry: Geometry, words: &[u64], child: u32, word: u32) -> u64
    requires count { length words.now ≡ word_count (key_of geometry) }
    requires child { child < geometry.children }
    requires word { word < 8 }
    ensures { result ≡ bit_word_of (key_of geometry) words.now (8 * child + word) }
{
    words[bits_place(geometry, CHILD_WORDS * child + word)]
}

fn set_frames(geometry: Geometry, words: &[u64], child: u32) -> u32
    requires count { length words.now ≡ word_count (key_of geometry) }
    requires child { child < geometry.children }
    ensures value { result ≡ set_of (key_of geometry) words.now child }
    ensures limit { result ≤ 512 }
{
    let mut set = 0;
    for word in 0..CHILD_WORDS {
        set += bit_word(geometry, words, child, word).count_ones();
    }
    set
}
