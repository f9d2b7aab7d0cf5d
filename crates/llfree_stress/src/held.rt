//! What an image holds beside what is stamped.

use super::stamps::FRAME_WORDS;
use frame_core::Image;
use std::sync::atomic::{AtomicU64, Ordering};

// By the flag of its child, or by its bit.
fn is_held(image: &Image, child: u32, word: u32, bit: u32) -> bool {
    if child >= image.geometry().children() || word >= 8 {
        return false;
    }
    image.huge(child) || (image.word(child, word) >> (bit % 64)) % 2 == 1
}

/// The frames that are held with no stamp, or stamped and not held.
pub fn unlike(image: &Image, memory: &[AtomicU64]) -> u64 {
    let mut count = 0u64;
    for child in 0..image.geometry().children() {
        for word in 0..8u32 {
            for bit in 0..64u32 {
                let frame = 512 * child as usize + (64 * word + bit) as usize;
                let stamp = memory
                    .get(frame * FRAME_WORDS)
                    .map_or(0, |word| word.load(Ordering::SeqCst));
                if (stamp != 0) != is_held(image, child, word, bit) {
                    count = count.saturating_add(1);
                }
            }
        }
    }
    count
}
