//! The blocks in flight of one thread, and how a block leaves them.

ghost use Rattle.std.specs.Prelude.{◌≡◌, ◌+◌, ◌*◌, ◌≤◌, ◌<◌, ◌^◌, ◌∷◌, [], ◌++◌, length, flat_map, not, ◌&&◌, ◌||◌, if◌then◌else◌};
ghost use Rattle.std.specs.List.{All};
ghost use Rattle.std.specs.VecDeque.{deque_capacity};
ghost use Rattle.frame_words.specs.Geometry.{most_children, word_frames};
ghost use Rattle.frame_model.specs.Block.{block, single_blocks};
ghost use Rattle.frame_model.specs.Without.{
  is_same,
  is_apart,
  is_inside,
  remains,
  remainder,
  less_one,
  without,
};
ghost use Rattle.plain_moves.specs.Plain.{IsLow};

use frame_model::FrameBlock;
use frame_words::{HUGE_ORDER, WORD_FRAMES};
use std::collections::VecDeque;

/// The block leaves the list.
#[tactic(auto, unfolding(frame_model::specs::Without::without))]
pub(crate) fn leave(list: &mut VecDeque<FrameBlock>, b: FrameBlock)
    requires block { IsLow b }
    requires list { All IsLow list.old.items }
    requires room { length list.old.items + length (without b list.old.items) ≤ deque_capacity list.old }
    ensures items { list.new.items ≡ without b list.old.items }
    ensures room { deque_capacity list.new ≡ deque_capacity list.old }
{
    if b.order < HUGE_ORDER {
        cut_all(list, b);
    } else {
        leave_once(list, b);
    }
}

/// The frames of a bit word at the bits of a mask come first.
pub(crate) fn push_singles(list: &mut VecDeque<FrameBlock>, word: u32, mask: u64)
    requires word { word < 8 * most_children }
    requires room { length list.old.items + word_frames ≤ deque_capacity list.old }
    ensures items { list.new.items ≡ single_blocks word mask ++ list.old.items }
    ensures room { deque_capacity list.new ≡ deque_capacity list.old }
{
    for step in 0..WORD_FRAMES {
        let bit = WORD_FRAMES - 1 - step;
        if mask >> bit & 1 == 1 {
            list.push_front_reserved(FrameBlock {
                frame: WORD_FRAMES * word + bit,
                order: 0,
            });
        }
    }
}

// What lies in the block leaves every block of the list.
fn cut_all(list: &mut VecDeque<FrameBlock>, b: FrameBlock)
    requires block { IsLow b }
    requires list { All IsLow list.old.items }
    requires room { length list.old.items + length (flat_map (remainder b) list.old.items)
        ≤ deque_capacity list.old }
    ensures items { list.new.items ≡ flat_map (remainder b) list.old.items }
    ensures room { deque_capacity list.new ≡ deque_capacity list.old }
{
    for _i in 0..list.len() {
        if let Some(whole) = list.pop_front() {
            push_remainder(list, b, whole);
        }
    }
}

// This very block leaves the list once.
fn leave_once(list: &mut VecDeque<FrameBlock>, b: FrameBlock)
    ensures items { list.new.items ≡ less_one b list.old.items }
    ensures room { deque_capacity list.new ≡ deque_capacity list.old }
{
    let mut has_left = false;
    for _i in 0..list.len() {
        if let Some(whole) = list.pop_front() {
            has_left = push_other(list, b, whole, has_left);
        }
    }
}

// Puts the block last, but where it is this very one, and none has left yet.
fn push_other(
    list: &mut VecDeque<FrameBlock>,
    b: FrameBlock,
    whole: FrameBlock,
    has_left: bool,
) -> bool
    requires { length list.old.items < deque_capacity list.old }
    ensures left { result ≡ (has_left || is_same b whole) }
    ensures items { list.new.items
        ≡ (if not has_left && is_same b whole then list.old.items
        else list.old.items ++ whole ∷ []) }
    ensures room { deque_capacity list.new ≡ deque_capacity list.old }
{
    if has_left {
        list.push_back_reserved(whole);
        return true;
    }
    if are_same(b, whole) {
        return true;
    }
    list.push_back_reserved(whole);
    false
}

// Puts last what remains of one block without the frames of another.
#[tactic(auto, unfolding(frame_model::specs::Without::remainder))]
fn push_remainder(list: &mut VecDeque<FrameBlock>, b: FrameBlock, whole: FrameBlock)
    requires block { IsLow b }
    requires whole { IsLow whole }
    requires room { length list.old.items + length (remainder b whole) ≤ deque_capacity list.old }
    ensures items { list.new.items ≡ list.old.items ++ remainder b whole }
    ensures room { deque_capacity list.new ≡ deque_capacity list.old }
{
    if whole.order < HUGE_ORDER {
        push_remains(list, b, whole.order, whole.frame);
    } else {
        list.push_back_reserved(whole);
    }
}

// Puts last what remains of `2^order` frames without those of the block.
#[tactic(auto, unfolding(frame_model::specs::Without::remains))]
fn push_remains(list: &mut VecDeque<FrameBlock>, b: FrameBlock, order: u8, frame: u32)
    requires block { IsLow b }
    requires whole { IsLow (block frame order) }
    requires room { length list.old.items + length (remains b order frame) ≤ deque_capacity list.old }
    ensures items { list.new.items ≡ list.old.items ++ remains b order frame }
    ensures room { deque_capacity list.new ≡ deque_capacity list.old }
{
    let whole = FrameBlock { frame, order };
    if are_apart(b, whole) {
        list.push_back_reserved(whole);
        return;
    }
    if order == 0 || lies_inside(b, whole) {
        return;
    }
    push_remains(list, b, order - 1, frame);
    push_remains(list, b, order - 1, frame + (1 << (order - 1)));
}

#[tactic(auto, unfolding(frame_model::specs::Without::is_same))]
fn are_same(a: FrameBlock, b: FrameBlock) -> bool
    ensures { result ≡ is_same a b }
{
    a.frame == b.frame && a.order == b.order
}

#[tactic(auto, unfolding(frame_model::specs::Without::is_apart))]
fn are_apart(a: FrameBlock, b: FrameBlock) -> bool
    requires a { IsLow a }
    requires b { IsLow b }
    ensures { result ≡ is_apart a b }
{
    a.frame + (1 << a.order) <= b.frame || b.frame + (1 << b.order) <= a.frame
}

#[tactic(auto, unfolding(frame_model::specs::Without::is_inside))]
fn lies_inside(a: FrameBlock, b: FrameBlock) -> bool
    requires a { IsLow a }
    requires b { IsLow b }
    ensures { result ≡ is_inside a b }
{
    a.frame <= b.frame && b.frame + (1 << b.order) <= a.frame + (1 << a.order)
}
