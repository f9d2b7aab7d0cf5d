//! The numbers of the image at which a zone that was stopped goes on, from its words.

ghost use Rattle.std.specs.Prelude.{◌≡◌, ◌≢◌, length};
ghost use Rattle.frame_model.specs.Words.{word_count};
ghost use Rattle.llfree_c.specs.Images.{image_words, StaysBehind};
ghost use Rattle.llfree_c.specs.Openings.{AreMemorySizes};
ghost use Rattle.llfree_c.specs.Status.{ok};
ghost use Rattle.llfree_c.specs.StoppedWords.{HasFramesAndCores, HasNoNumbers, SaysOfWords};
ghost use Rattle.frame_model.specs.declared.key.Key.{Key};

use crate::images::llfree_image_words;
use crate::rebuilt_image::write_rebuilt;
use crate::sizes::geometry_of;
use crate::statuses::{BAD_IMAGE, NO_ROOM, OK};
use frame_core::layout::word_count;

/// How many words a zone of so many frames and cores has; none where there is no such zone.
#[unsafe(no_mangle)]
pub extern "C" fn llfree_words(frames: u32, cores: u32) -> usize
    ensures some { AreMemorySizes frames cores → (key : Key) → HasFramesAndCores frames cores key
        → result ≡ word_count key }
    ensures none { ¬ AreMemorySizes frames cores → result ≡ 0 }
{
    match geometry_of(frames, cores) {
        Ok(geometry) => word_count(geometry),
        Err(_) => 0,
    }
}

/// Writes the numbers of the image that these words of one zone are rebuilt to, whatever their counters say.
#[unsafe(no_mangle)]
pub extern "C" fn llfree_image_of_words(
    frames: u32,
    cores: u32,
    words: &[u64],
    numbers: &mut [u64],
) -> u32
    ensures says { result ≡ ok → SaysOfWords frames cores words.now numbers.new }
    ensures behind { result ≡ ok → StaysBehind (image_words frames) numbers.old numbers.new }
    ensures refused { result ≢ ok → numbers.new ≡ numbers.old }
    ensures why { result ≢ ok
        → HasNoNumbers frames cores words.now (length numbers.old) result }
{
    let geometry = match geometry_of(frames, cores) {
        Ok(geometry) => geometry,
        Err(status) => return status,
    };
    if words.len() != word_count(geometry) {
        return BAD_IMAGE;
    }
    if numbers.len() < llfree_image_words(frames) {
        return NO_ROOM;
    }
    write_rebuilt(geometry, words, numbers);
    OK
}
