//! The single frames that rest with a core, in a list of its own.

ghost use Rattle.std.specs.Prelude.{◌≡◌, ◌+◌, ◌*◌, ◌<◌, ◌≤◌, ◌∷◌, ◌++◌, [], length, drop, take, vec_capacity, IfOk, IfErr, IfSome, IfNone};
ghost use Rattle.zone_slots.specs.Resting.{PlansNext};

use crate::single_frame::SingleFrame;
use frame_table::Block;
use frame_words::{CHILD_FRAMES, Fault};
use std::alloc::Global;
use std::mem::swap;

/// How many frames rest with a core at most.
pub(crate) const MOST_RESTING: usize = 128;

/// How many come to rest at once at most.
pub(crate) const REFILL: u32 = 16;

/// How many where those that came last lay apart: there each costs an exchange of its own.
pub(crate) const REFILL_APART: u32 = 8;

/// How many of them go back where there is no place for one more.
pub(crate) const FLUSH: usize = 8;

// How many times as many stand behind these in a full list.
const FLUSHES_BEHIND: usize = 15;

// Room for a cache line more: behind what one core writes lies nothing that another one does.
const ROOM: usize = 144;

const BATCH_ROOM: usize = 24;

/// The frames that rest with a core, the one that came first in front. It has room for all from the start.
#[derive(Drop)]
pub struct FrameList {
    pub(crate) list: Vec<SingleFrame>,
    // Where a batch lies before it rests, empty in between.
    pub(crate) batch: Vec<Block>,
    // How many come to rest next.
    pub(crate) next: u32,
    pub(crate) ghost few: { length list.items ≤ 128 },
    pub(crate) ghost room: { 128 ≤ vec_capacity list },
    pub(crate) ghost no_batch: { batch.items ≡ [] },
    pub(crate) ghost batch_room: { 16 ≤ vec_capacity batch },
    pub(crate) ghost some_next: { 0 < next },
    pub(crate) ghost few_next: { next ≤ 16 },
}

impl FrameList {
    /// None rests. Refused for lack of memory alone.
    pub(crate) fn new(alloc: Global) -> Result<FrameList, Fault>
        ensures empty { IfOk result (λ l. l.list.items ≡ []) }
        ensures err { IfErr result (λ e. e ≡ Fault.NoMemory) }
    {
        let Ok(list) = Vec::with_capacity(alloc, ROOM) else {
            return Err(Fault::NoMemory);
        };
        let Ok(batch) = Vec::with_capacity(alloc, BATCH_ROOM) else {
            return Err(Fault::NoMemory);
        };
        Ok(FrameList {
            list,
            batch,
            next: REFILL,
        })
    }

    #[inline(always)]
    pub(crate) fn len(&self) -> usize
        ensures { result ≡ length self.now.list.items }
    {
        self.list.len()
    }

    /// The frame that came last, if one rests.
    #[inline(always)]
    pub(crate) fn pop(&mut self) -> Option<SingleFrame>
        ensures some { IfSome result (λ f. self.old.list.items ≡ self.new.list.items ++ f ∷ []) }
        ensures none { IfNone result ((self.old.list.items ≡ []) × (self.new.list.items ≡ [])) }
        ensures next { self.new.next ≡ self.old.next }
    {
        self.list.pop()
    }

    /// The frame rests last.
    #[inline(always)]
    pub(crate) fn push(&mut self, frame: SingleFrame)
        requires { length self.old.list.items < 128 }
        ensures { self.new.list.items ≡ self.old.list.items ++ frame ∷ [] }
    {
        self.list.push_reserved(frame);
    }

    /// Plans how many come to rest next: as many as may, where those that rest lie less than a huge frame apart, since
    /// a batch of these costs few exchanges. Where none rests the plan stays.
    pub(crate) fn plan(&mut self)
        ensures list { self.new.list.items ≡ self.old.list.items }
        ensures next { PlansNext self.new.list.items self.old.next self.new.next }
    {
        let Some(upper) = self.list.as_slice().first() else {
            return;
        };
        let Some(lower) = self.list.as_slice().last() else {
            return;
        };
        self.next = if upper.frame.saturating_sub(lower.frame) < CHILD_FRAMES {
            REFILL
        } else {
            REFILL_APART
        };
    }

    /// Whether the 8 that came last look like all frames of one block, whatever their order.
    #[inline(always)]
    pub(crate) fn ends_in_one_block(&self) -> bool
        requires { 8 ≤ length self.now.list.items }
    {
        let frames = self.list.as_slice();
        let last = &frames[frames.len() - FLUSH..];
        let block = last[0].frame / FLUSH as u32;
        for i in 1..FLUSH {
            if last[i].frame / FLUSH as u32 != block {
                return false;
            }
        }
        true
    }

    /// Of a full list the 8 that came first stand last.
    pub(crate) fn turn(&mut self)
        requires { length self.old.list.items ≡ 128 }
        ensures turned { self.new.list.items ≡ drop 8 self.old.list.items ++ take 8 self.old.list.items }
        ensures len { length self.new.list.items ≡ length self.old.list.items }
    {
        move_back(self.list.as_mut_slice(), FLUSHES_BEHIND);
    }
}

// Puts the first 8 behind so many times 8 others, which move up 8 after 8: a rotation would have the
// frames wait on the stack, in 7 KiB.
fn move_back(frames: &mut [SingleFrame], times: usize)
    requires { length frames.old ≡ 8 * times + 8 }
    ensures { frames.new ≡ drop 8 frames.old ++ take 8 frames.old }
{
    if times == 0 {
        return;
    }
    let Some((first, others)) = frames.split_first_chunk_mut::<FLUSH>() else {
        unreachable!()
    };
    let Some(next) = others.first_chunk_mut::<FLUSH>() else {
        unreachable!()
    };
    swap(first, next);
    move_back(others, times - 1);
}
