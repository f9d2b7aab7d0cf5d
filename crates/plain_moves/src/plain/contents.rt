//! What lists of blocks and of filled words hold, read block by block.

ghost use Rattle.std.specs.Prelude.{◌≡◌, ◌≢◌, ◌*◌, ◌/◌, ◌+◌, ◌^◌, ◌<◌, ◌≤◌, ℕ, true, false};
ghost use Rattle.std.specs.List.{All};
ghost use Rattle.frame_words.specs.Geometry.{most_children};
ghost use Rattle.frame_model.specs.Block.{small_at, whole_at, smalls, wholes};
ghost use Rattle.frame_model.specs.View.{names};
ghost use Rattle.plain_moves.specs.Plain.{SomeBeginsElse, IsLow};
ghost use Rattle.plain_moves.specs.Plain.{SomeBeginsElse, BeginsIn, IsOutside};

use frame_model::FrameBlock;
use frame_words::{CHILD_FRAMES, CHILD_WORDS, HUGE_ORDER, child_of};
use std::collections::VecDeque;

// Each block begins in the child.
pub(crate) fn all_begin_in(blocks: &VecDeque<FrameBlock>, child: u32) -> bool
    ensures yes { result ≡ true → All (BeginsIn child) blocks.now.items }
    ensures no { result ≡ false → SomeBeginsElse child blocks.now.items }
{
    for i in 0..blocks.len() {
        if child_of(blocks[i].frame) != child {
            return false;
        }
    }
    true
}

// How many blocks below order 9 hold the frame.
pub(crate) fn count_smalls(blocks: &VecDeque<FrameBlock>, frame: u32) -> usize
    requires { All IsLow blocks.now.items }
    ensures { result ≡ smalls frame blocks.now.items }
{
    let mut count = 0;
    for i in 0..blocks.len() {
        count += small_in(blocks[i], frame);
    }
    count
}

// How many blocks are this child.
pub(crate) fn count_wholes(blocks: &VecDeque<FrameBlock>, child: u32) -> usize
    requires { child < most_children }
    ensures { result ≡ wholes child blocks.now.items }
{
    let mut count = 0;
    for i in 0..blocks.len() {
        count += whole_in(blocks[i], child);
    }
    count
}

#[tactic(auto, unfolding(frame_model::specs::Block::small_at, frame_model::specs::Block::covers))]
fn small_in(b: FrameBlock, frame: u32) -> usize
    requires { IsLow b }
    ensures value { result ≡ small_at frame b }
    ensures few { result ≤ 1 }
{
    if b.order < HUGE_ORDER && b.frame <= frame && frame < b.frame + (1 << b.order) {
        return 1;
    }
    0
}

#[tactic(auto, unfolding(frame_model::specs::Block::whole_at))]
fn whole_in(b: FrameBlock, child: u32) -> usize
    requires { child < most_children }
    ensures value { result ≡ whole_at child b }
    ensures few { result ≤ 1 }
{
    if b.order == HUGE_ORDER && b.frame == CHILD_FRAMES * child {
        return 1;
    }
    0
}

// No word is one of the child.
pub(crate) fn none_of(words: &VecDeque<u32>, child: u32) -> bool
    ensures yes { result ≡ true → All (IsOutside child) words.now.items }
    ensures no { result ≡ false
        → (word : ℕ) × ((word / 8 ≡ child) × (names word words.now.items ≡ 1)) }
{
    for i in 0..words.len() {
        if words[i] / CHILD_WORDS == child {
            return false;
        }
    }
    true
}

// Each word of the child is in the list.
pub(crate) fn all_of(words: &VecDeque<u32>, child: u32) -> bool
    requires { child < most_children }
    ensures yes { result ≡ true → (word : ℕ) → word / 8 ≡ child → names word words.now.items ≡ 1 }
    ensures no { result ≡ false
        → (word : ℕ) × ((word / 8 ≡ child) × (names word words.now.items ≢ 1)) }
{
    for word in CHILD_WORDS * child..CHILD_WORDS * child + CHILD_WORDS {
        if !words.contains(&word) {
            return false;
        }
    }
    true
}
