//! The frames of an image that are left: a bit for each, and a flag for each child, which are only
//! ever cleared.

ghost use Rattle.std.specs.Prelude.{◌≡◌, ◌≢◌, ◌⊎◌, ℕ, ◌+◌, ◌*◌, ◌^◌, ◌<◌, ◌≤◌, MatchBool, IfOk, IfErr, length};
ghost use Rattle.frame_words.specs.Geometry.{child_frames, huge_order};
ghost use Rattle.frame_words.specs.Runs.{word_bits};
ghost use Rattle.frame_model.specs.Block.{block};
ghost use Rattle.frame_core.specs.Image.{key_in};
ghost use Rattle.core_frames.specs.LeftFrames.{bit_in, AreBitWordsOf, AreFlagsOf, IsShown, HasCleared};

use crate::places::lies_within;
use frame_core::Image;
use frame_words::{CHILD_WORDS, Fault, HUGE_ORDER, WORD_FRAMES, child_of, frames_of};
use std::alloc::Global;

/// The bits of frames, and the flags of children.
#[derive(Drop)]
pub(crate) struct LeftFrames {
    pub(crate) bits: Vec<u64>,
    pub(crate) huge: Vec<bool>,
}

impl LeftFrames {
    /// Those of the image. Refused only for lack of memory.
    pub(crate) fn of(alloc: Global, image: &Image) -> Result<LeftFrames, Fault>
        ensures bits { IfOk result (λ l. AreBitWordsOf (key_in image.now) image.now.words l.bits.items) }
        ensures huge { IfOk result (λ l. AreFlagsOf (key_in image.now) image.now.words l.huge.items) }
        ensures err { IfErr result (λ e. e ≡ Fault.NoMemory) }
    {
        let bits = bits_of(alloc, image)?;
        let huge = flags_of(alloc, image)?;
        Ok(LeftFrames { bits, huge })
    }

    /// Is it an aligned block of so many frames, held by itself?
    pub(crate) fn shows(&self, frames: u32, frame: u32, order: u8) -> bool
        requires order { order ≤ huge_order }
        requires bits { frames ≤ word_bits * length self.now.bits.items }
        requires huge { frames ≤ child_frames * length self.now.huge.items }
        ensures { MatchBool result
            (IsShown frames self.now.bits.items self.now.huge.items (block frame order))
            (¬ IsShown frames self.now.bits.items self.now.huge.items (block frame order)) }
    {
        if !lies_within(frames, frame, order) {
            return false;
        }
        if order == HUGE_ORDER {
            return self.huge[child_of(frame) as usize];
        }
        are_set(self.bits.as_slice(), frame, frame + frames_of(order))
    }

    /// The block is left no more.
    pub(crate) fn clear_block(&mut self, frame: u32, order: u8)
        requires order { order ≤ huge_order }
        requires fits { frame + 2 ^ order < 2 ^ 32 }
        requires huge { frame + 2 ^ order ≤ child_frames * length self.old.huge.items }
        requires shown { IsShown (word_bits * length self.old.bits.items)
            self.old.bits.items self.old.huge.items (block frame order) }
        ensures { HasCleared (block frame order) self.old.bits.items self.old.huge.items
            self.new.bits.items self.new.huge.items }
    {
        if order == HUGE_ORDER {
            self.huge[child_of(frame) as usize] = false;
            return;
        }
        clear_run(&mut self.bits, frame, frame + frames_of(order));
    }
}

fn bits_of(alloc: Global, image: &Image) -> Result<Vec<u64>, Fault>
    ensures bits { IfOk result (λ bits. AreBitWordsOf (key_in image.now) image.now.words bits.items) }
    ensures err { IfErr result (λ e. e ≡ Fault.NoMemory) }
{
    let count = CHILD_WORDS * image.geometry().children();
    let Ok(mut bits) = Vec::with_capacity(alloc, count as usize) else {
        return Err(Fault::NoMemory);
    };
    for word in 0..count {
        bits.push_reserved(image.word(word / CHILD_WORDS, word % CHILD_WORDS));
    }
    Ok(bits)
}

fn flags_of(alloc: Global, image: &Image) -> Result<Vec<bool>, Fault>
    ensures huge { IfOk result (λ huge. AreFlagsOf (key_in image.now) image.now.words huge.items) }
    ensures err { IfErr result (λ e. e ≡ Fault.NoMemory) }
{
    let count = image.geometry().children();
    let Ok(mut huge) = Vec::with_capacity(alloc, count as usize) else {
        return Err(Fault::NoMemory);
    };
    for child in 0..count {
        huge.push_reserved(image.huge(child));
    }
    Ok(huge)
}

// Are the bits of the frames from one to before another set?
fn are_set(bits: &[u64], from: u32, end: u32) -> bool
    requires { end ≤ word_bits * length bits.now }
    ensures { MatchBool result
        ((x : ℕ) → from ≤ x → x < end → bit_in bits.now x ≡ 1)
        (¬ ((x : ℕ) → from ≤ x → x < end → bit_in bits.now x ≡ 1)) }
{
    for x in from..end {
        if !is_set(bits, x) {
            return false;
        }
    }
    true
}

fn is_set(bits: &[u64], frame: u32) -> bool
    requires { frame < word_bits * length bits.now }
    ensures { MatchBool result (bit_in bits.now frame ≡ 1) (bit_in bits.now frame ≡ 0) }
{
    (bits[(frame / WORD_FRAMES) as usize] >> (frame % WORD_FRAMES)) & 1 == 1
}

fn clear_run(bits: &mut Vec<u64>, from: u32, end: u32)
    requires { (from ≤ end) × (end ≤ word_bits * length bits.old.items) }
    ensures count { length bits.new.items ≡ length bits.old.items }
    ensures cleared { (x : ℕ) → from ≤ x → x < end → bit_in bits.new.items x ≡ 0 }
    ensures others { (x : ℕ) → (x < from) ⊎ (end ≤ x)
        → bit_in bits.new.items x ≡ bit_in bits.old.items x }
{
    for x in from..end {
        clear_bit(bits, x);
    }
}

fn clear_bit(bits: &mut Vec<u64>, frame: u32)
    requires { frame < word_bits * length bits.old.items }
    ensures count { length bits.new.items ≡ length bits.old.items }
    ensures cleared { bit_in bits.new.items frame ≡ 0 }
    ensures others { (x : ℕ) → x ≢ frame → bit_in bits.new.items x ≡ bit_in bits.old.items x }
{
    bits[(frame / WORD_FRAMES) as usize] &= !(1 << (frame % WORD_FRAMES));
}
