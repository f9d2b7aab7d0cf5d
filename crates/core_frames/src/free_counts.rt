//! How much is free: sums over what the entries of the children count.

ghost use Rattle.std.specs.Prelude.{◌≡◌, ◌+◌, ◌-◌, ◌*◌, ◌/◌, ◌^◌, ◌≤◌, min};
ghost use Rattle.std.specs.List.{sum_by, range_with_len};
ghost use Rattle.frame_words.specs.Geometry.{child_frames, huge_order, most_children};
ghost use Rattle.frame_model.specs.Report.{free_frames, clear_blocks};
ghost use Rattle.frame_model.specs.View.{IsIdle};
ghost use Rattle.frame_model.specs.Words.{entry_word_count};
ghost use Rattle.frame_table.specs.Seats.{reads_of};
ghost use Rattle.low_frames.specs.Alone.{FindsOf};
ghost use Rattle.core_frames.specs.Cores.{memory_of, seat_of, view_in, known_by};
ghost use Rattle.core_frames.specs.Cores.{StepsAlone, IsCoreOf, StaysCoreOf, KeepsHabit};
ghost use Rattle.core_frames.specs.FreeCounts.{free_at, is_whole, shows_whole, frames_read, huge_read};
ghost use Rattle.core_frames.specs.FreeCounts.{AreExact, LooksOver, AreCountsOf};
ghost use Rattle.core_frames.specs.Uses.{IsSameAfter};

use crate::shared::allocator::{Allocator, Core};
use frame_core::{Moves, Place};
use frame_table::SharedMoves;
use frame_words::{CHILD_FRAMES, LANES, entry_free, lane};

/// The entry of a child of which all frames are free.
const WHOLE: u64 = CHILD_FRAMES as u64;

/// What the entries of children count: frames that are free, and children that are free as a whole.
#[derive(Clone, Copy, Debug, PartialEq, Eq)]
pub struct FreeCounts {
    pub frames: u32,
    pub huge: u32,
}

impl Allocator {
    /// How many frames are free: the sum over the entries of the children, four of them in a load.
    /// Beside others they are entries of different times, and frames that a core is about to take
    /// or to give count as held; where nobody else steps the sum is exact.
    pub fn free_frames(&self, core: &mut Core) -> u32
        requires { IsCoreOf self.now core.old }
        ensures core { StaysCoreOf self.now core.old core.new }
        ensures habit { KeepsHabit core.old core.new }
        ensures view { IsSameAfter (entry_word_count (memory_of self.now)) (view_in core.old)
            (view_in core.new) }
        ensures sum { result ≡ min (frames_read (reads_of (seat_of core.new))
            (memory_of self.now).children) (memory_of self.now).frames }
        ensures few { result ≤ (memory_of self.now).frames }
        ensures alone { StepsAlone self.now core.old → FindsOf
            (λ words. result ≡ free_frames (memory_of self.now) words)
            (known_by core.old) (known_by core.new) }
    {
        self.look_over(core).frames
    }

    /// How many huge frames are free: children whose entries count all frames as free, with the same
    /// loads.
    pub fn free_huge(&self, core: &mut Core) -> u32
        requires { IsCoreOf self.now core.old }
        ensures core { StaysCoreOf self.now core.old core.new }
        ensures habit { KeepsHabit core.old core.new }
        ensures view { IsSameAfter (entry_word_count (memory_of self.now)) (view_in core.old)
            (view_in core.new) }
        ensures sum { result ≡ min (huge_read (reads_of (seat_of core.new))
            (memory_of self.now).children) ((memory_of self.now).frames / child_frames) }
        ensures few { child_frames * result ≤ (memory_of self.now).frames }
        ensures alone { StepsAlone self.now core.old → FindsOf
            (λ words. result ≡ clear_blocks (memory_of self.now) words huge_order)
            (known_by core.old) (known_by core.new) }
    {
        self.look_over(core).huge
    }

    // Both counts.
    fn look_over(&self, core: &mut Core) -> FreeCounts
        requires { IsCoreOf self.now core.old }
        ensures core { StaysCoreOf self.now core.old core.new }
        ensures habit { KeepsHabit core.old core.new }
        ensures view { IsSameAfter (entry_word_count (memory_of self.now)) (view_in core.old)
            (view_in core.new) }
        ensures counts { AreCountsOf self.now result core.new }
        ensures alone { StepsAlone self.now core.old → FindsOf
            (AreExact (memory_of self.now) result) (known_by core.old) (known_by core.new) }
    {
        let mut m = SharedMoves::new(&self.table, &mut core.seat);
        let most = m.geometry().frames();
        let counts = free_counts_by(&mut m);
        // No entry counts a frame past the end, but no load promises it.
        FreeCounts {
            frames: counts.frames.min(most),
            huge: counts.huge.min(most / CHILD_FRAMES),
        }
    }
}

/// Counts what is free, by one load of each word of entries.
pub fn free_counts_by<M: Moves>(m: &mut M) -> FreeCounts
    requires { IsIdle (M.at m.old).view }
    ensures { LooksOver M.tick result (M.at m.old) (M.at m.new) }
{
    let children = m.geometry().children();
    let mut counts = FreeCounts { frames: 0, huge: 0 };
    for i in 0..children.div_ceil(LANES) {
        let first = LANES * i;
        let word = m.load(Place::Entry(first));
        counts = count_entries(counts, word, first, children.min(first + LANES));
    }
    counts
}

/// Adds what a word says of the children from one on, up to another.
fn count_entries(counts: FreeCounts, word: u64, first: u32, end: u32) -> FreeCounts
    requires order { first ≤ end }
    requires end { end ≤ most_children }
    requires few { (counts.frames ≤ 2 ^ 15 * first) × (counts.huge ≤ first) }
    ensures frames { result.frames ≡ counts.frames
        + sum_by (free_at word) (range_with_len first (end - first)) }
    ensures huge { result.huge ≡ counts.huge
        + sum_by (shows_whole word) (range_with_len first (end - first)) }
    ensures few { (result.frames ≤ 2 ^ 15 * end) × (result.huge ≤ end) }
{
    let mut sum = counts;
    for child in first..end {
        let entry = lane(word, child);
        sum.frames += entry_free(entry);
        sum.huge += whole_in(entry);
    }
    sum
}

/// 1 where the entry shows its child free as a whole, else 0.
#[tactic(auto, unfolding(crate::specs::FreeCounts::is_whole))]
fn whole_in(entry: u64) -> u32
    ensures value { result ≡ is_whole entry }
    ensures few { result ≤ 1 }
{
    if entry == WHOLE { 1 } else { 0 }
}
