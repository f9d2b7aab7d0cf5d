//! An allocator for one thread: the moves over its words, which nobody else steps, and a byte a frame
//! for the block that begins there.

ghost use Rattle.std.specs.Prelude.{◌≡◌, ◌+◌, ◌⊎◌, ◌↔◌, ◌<◌, [], ◌∷◌, OnOk, OnErr, IfOk, IfErr, IfSome, IfNone};
ghost use Rattle.std.specs.List.{Contains};
ghost use Rattle.std.specs.List.Sorted.{IsPermutation};
ghost use Rattle.frame_model.specs.Block.{block as block_at};
ghost use Rattle.frame_model.specs.Holding.{IsHolding};
ghost use Rattle.frame_model.specs.Key.{AreRanges, sealed_key, frame_count};
ghost use Rattle.frame_model.specs.Laws.{AddsUp};
ghost use Rattle.frame_model.specs.Openings.{IsSealedOpening};
ghost use Rattle.frame_model.specs.QuietTake.{QuietTake};
ghost use Rattle.frame_model.specs.Stops.{unsealed};
ghost use Rattle.plain_moves.specs.Plain.{Begins};
ghost use Rattle.plain_moves.specs.PlainState.{words_by, IsByItself};
ghost use Rattle.core_frames.specs.FreeCounts.{frames_together, clear_children};
ghost use Rattle.core_frames.specs.PlainAgree.{AreOfCores};
ghost use Rattle.core_frames.specs.Ranges.{MayHoldBack, IsUnopenedFor};
ghost use Rattle.core_frames.specs.PlainState.{memory_by, held_by, HandsBack, HoldsExactly, Splits};

mod starts;

use super::free_counts::{FreeCounts, free_counts_by};
use super::gives::give_by;
use super::ranges::may_hold_back;
use super::splits::split_by;
use super::takes::take_by;
use crate::search::drain::drain;
use crate::search::habit::Habit;
use frame_core::{HeldBlock, Image, Moves, PlainBlock};
use frame_words::{CHILD_FRAMES, Fault, Geometry, HUGE_ORDER, TakeFault};
use plain_moves::PlainMoves;
use starts::{NONE, kept_byte, out_byte};
use std::alloc::Global;
use std::marker::Model;

/// Above every order: no take was refused since the last give.
const NO_ORDER: u8 = HUGE_ORDER + 1;

/// The frames of a memory, taken and given by one thread for each of its cores. Where several
/// blocks are free, which one a take answers is not said.
#[derive(Drop)]
pub struct PlainAllocator {
    moves: PlainMoves,
    // What the opening held back besides the frames past the end.
    ranges: Vec<(u32, u32)>,
    starts: Vec<u8>,
    habits: Vec<Habit>,
    // No block of this order or of one above is free: until a give, such a take is refused without a
    // search.
    refused: u8,
}

impl Model for PlainAllocator {
    ghost use Rattle.core_frames.specs.PlainBytes.{out_of, kept_of};
    ghost use Rattle.core_frames.specs.PlainAgree.{AgreeWith};
    ghost use Rattle.core_frames.specs.PlainState.{PlainState};
    ghost use Rattle.frame_model.specs.Key.{sealed_key};

    ghost Value = { PlainState };

    ghost view = { λ a. record {
      geometry = a.moves.geometry;
      ranges = a.ranges.items;
      out = out_of a.starts.items;
      kept = kept_of a.starts.items;
    } };

    ghost invariant = { λ a. AgreeWith (sealed_key a.moves.geometry a.ranges.items)
        (⟦<PlainMoves as Moves>⟧.at a.moves) a.moves.words.items a.starts.items a.habits.items
        a.refused };
}

impl PlainAllocator {
    /// All frames are free but those past the end.
    pub fn open(alloc: Global, geometry: Geometry) -> Result<PlainAllocator, Fault>
        ensures geometry { IfOk result (λ a. (a.geometry ≡ geometry) × (a.ranges ≡ [])) }
        ensures nothing { IfOk result (λ a. (a.out ≡ []) × (a.kept ≡ [])) }
        ensures fault { IfErr result (λ e. e ≡ Fault.NoMemory) }
    {
        PlainAllocator::open_with(alloc, geometry, &[])
    }

    /// The same, and nobody is ever given a frame of the ranges; a range is its first frame and how
    /// many frames it has. `BadRange` exactly where they may not be held back, and before memory
    /// is asked for.
    pub fn open_with(
        alloc: Global,
        geometry: Geometry,
        ranges: &[(u32, u32)],
    ) -> Result<PlainAllocator, Fault>
        ensures geometry { IfOk result (λ a. (a.geometry ≡ geometry) × (a.ranges ≡ ranges.now)) }
        ensures nothing { IfOk result (λ a. (a.out ≡ []) × (a.kept ≡ [])) }
        ensures lawful { IfOk result (λ a. MayHoldBack geometry ranges.now) }
        ensures refused { IfErr result (IsUnopenedFor geometry ranges.now) }
    {
        if !may_hold_back(&geometry, ranges) {
            return Err(Fault::BadRange);
        }
        let frames = (CHILD_FRAMES * geometry.children()) as usize;
        let starts = vec![in alloc; NONE; frames]?;
        let habits = habits_of(alloc, geometry)?;
        let moves = moves_with(alloc, &geometry, ranges)?;
        let ranges = ranges.to_vec(alloc)?;
        Ok(PlainAllocator {
            moves,
            ranges,
            starts,
            habits,
            refused: NO_ORDER,
        })
    }

    /// Takes a block for the core, which has to be one of the geometry's. No memory is needed.
    pub fn take(&mut self, core: u32, order: u8) -> Result<PlainBlock, TakeFault>
        requires { core < self.old.geometry.cores }
        ensures quiet { QuietTake (memory_by self.old) (held_by self.old) (held_by self.new) order
            result }
        ensures out { IfOk result (λ b. IsPermutation (b ∷ self.old.out) self.new.out) }
        ensures kept { self.new.kept ≡ self.old.kept }
        ensures refused { OnErr result (self.new ≡ self.old) }
        ensures geometry { (self.new.geometry ≡ self.old.geometry) × (self.new.ranges ≡ self.old.ranges) }
        ensures lawful { OnOk result (IsHolding (memory_by self.new) (held_by self.new)) }
    {
        if order >= self.refused && order <= HUGE_ORDER {
            drain(&mut self.moves, true);
            return Err(TakeFault::NoBlock);
        }
        let mut habit = self.habits[core as usize];
        let block = match take_by(&mut self.moves, &mut habit, order) {
            Ok(block) => block,
            Err(fault) => {
                self.refused = self.refused.min(order);
                return Err(fault);
            }
        };
        self.starts[block.frame() as usize] = out_byte(order);
        Ok(block)
    }

    /// The block of these numbers, where it is out.
    pub fn find_out(&self, frame: u32, order: u8) -> Option<PlainBlock>
        ensures some { IfSome result (λ b. (b ≡ block_at frame order) × Contains self.now.out b) }
        ensures none { IfNone result (¬ Contains self.now.out (block_at frame order)) }
    {
        let starts = &self.starts;
        let place = frame as usize;
        if place >= starts.len() {
            return None;
        }
        let start = starts[place];
        if order <= HUGE_ORDER && start == out_byte(order) {
            Some(PlainBlock::of(frame, order))
        } else {
            None
        }
    }

    /// Takes back a block that is out.
    pub fn give(&mut self, core: u32, block: PlainBlock)
        requires core { core < self.old.geometry.cores }
        requires out { Contains self.old.out block }
        ensures out { IsPermutation (block ∷ self.new.out) self.old.out }
        ensures kept { self.new.kept ≡ self.old.kept }
        ensures geometry { (self.new.geometry ≡ self.old.geometry) × (self.new.ranges ≡ self.old.ranges) }
    {
        let mut habit = self.habits[core as usize];
        self.put_back(&mut habit, block);
        self.habits[core as usize] = habit;
    }

    // Takes back a block that is out by the record of a core.
    fn put_back(&mut self, habit: &mut Habit, block: PlainBlock)
        requires core { habit.old.core < self.old.geometry.cores }
        requires out { Contains self.old.out block }
        ensures out { IsPermutation (block ∷ self.new.out) self.old.out }
        ensures kept { self.new.kept ≡ self.old.kept }
        ensures geometry { (self.new.geometry ≡ self.old.geometry) × (self.new.ranges ≡ self.old.ranges) }
        ensures core { habit.new.core ≡ habit.old.core }
    {
        let frame = block.frame();
        give_by(&mut self.moves, habit, block);
        self.starts[frame as usize] = NONE;
        self.refused = NO_ORDER;
    }

    /// Keeps a block that is out: it stays held, without a value that stands for it. The answer is
    /// its first frame and its order.
    pub fn keep(&mut self, core: u32, block: PlainBlock) -> (u32, u8)
        requires core { core < self.old.geometry.cores }
        requires out { Contains self.old.out block }
        ensures answer { (result.0 ≡ block.frame) × (result.1 ≡ block.order) }
        ensures out { IsPermutation (block ∷ self.new.out) self.old.out }
        ensures kept { IsPermutation (block ∷ self.old.kept) self.new.kept }
        ensures held { IsPermutation (held_by self.old) (held_by self.new) }
        ensures geometry { (self.new.geometry ≡ self.old.geometry) × (self.new.ranges ≡ self.old.ranges) }
    {
        let (frame, order) = (block.frame(), block.order());
        let start = &mut self.starts[frame as usize];
        *start = kept_byte(order);
        (frame, order)
    }

    /// Splits a block that is out into its halves, the lower first, which are out in its place. A
    /// block of order 0 has none, and is handed back.
    pub fn split(
        &mut self,
        core: u32,
        block: PlainBlock,
    ) -> Result<(PlainBlock, PlainBlock), PlainBlock>
        requires core { core < self.old.geometry.cores }
        requires out { Contains self.old.out block }
        ensures split { IfOk result (λ r. Splits block r.0 r.1 self.old self.new) }
        ensures kept { self.new.kept ≡ self.old.kept }
        ensures whole { IfErr result (λ same. HandsBack block same self.old self.new) }
        ensures geometry { (self.new.geometry ≡ self.old.geometry) × (self.new.ranges ≡ self.old.ranges) }
        ensures lawful { OnOk result (IsHolding (memory_by self.new) (held_by self.new)) }
    {
        let (lower, upper) = match split_by(&mut self.moves, block) {
            Ok(halves) => halves,
            Err(block) => return Err(block),
        };
        let byte = out_byte(lower.order());
        self.starts[lower.frame() as usize] = byte;
        self.starts[upper.frame() as usize] = byte;
        Ok((lower, upper))
    }

    /// How many frames are free. No memory is needed.
    pub fn free_frames(&mut self) -> u32
        ensures exact { result + frames_together (held_by self.old) ≡ frame_count (memory_by self.old) }
        ensures unchanged { self.new ≡ self.old }
    {
        self.free_counts().frames
    }

    /// How many huge frames are free: children of which no frame is held. No memory is needed.
    pub fn free_huge(&mut self) -> u32
        ensures exact { result ≡ clear_children (memory_by self.old) (held_by self.old) }
        ensures unchanged { self.new ≡ self.old }
    {
        self.free_counts().huge
    }

    // Both counts.
    fn free_counts(&mut self) -> FreeCounts
        ensures frames { result.frames + frames_together (held_by self.old)
            ≡ frame_count (memory_by self.old) }
        ensures huge { result.huge ≡ clear_children (memory_by self.old) (held_by self.old) }
        ensures unchanged { self.new ≡ self.old }
    {
        free_counts_by(&mut self.moves)
    }

    /// The image of the memory. Blocks that are still out count as held. What rests with a core rests
    /// there still (tested).
    pub fn close(self, alloc: Global) -> Result<Image, PlainAllocator>
        ensures geometry { IfOk result (λ i. i.geometry ≡ self.geometry) }
        ensures exact { IfOk result (λ i. HoldsExactly (memory_by self) i.words (held_by self)) }
        ensures counters { IfOk result (λ i. AddsUp (memory_by self) i.words) }
        ensures unchanged { IfErr result (λ back. back ≡ self) }
    {
        match self.image(alloc) {
            Ok(image) => Ok(image),
            Err(_) => Err(self),
        }
    }

    // The words as they stand.
    fn image(&self, alloc: Global) -> Result<Image, Fault>
        ensures geometry { IfOk result (λ i. i.geometry ≡ self.now.geometry) }
        ensures exact { IfOk result (λ i. HoldsExactly (memory_by self.now) i.words (held_by self.now)) }
        ensures counters { IfOk result (λ i. AddsUp (memory_by self.now) i.words) }
    {
        let image = self.moves.image(alloc)?;
        Ok(image)
    }
}

// The moves over the words of a memory that holds just what lies past the end and in the ranges.
fn moves_with(
    alloc: Global,
    geometry: &Geometry,
    ranges: &[(u32, u32)],
) -> Result<PlainMoves, Fault>
    requires { AreRanges 0 geometry.now.frames ranges.now }
    ensures opens { IfOk result (λ m. IsSealedOpening (sealed_key geometry.now ranges.now)
        (words_by m)) }
    ensures begins { IfOk result (λ m. Begins (unsealed (sealed_key geometry.now ranges.now))
        (words_by m) (⟦<PlainMoves as Moves>⟧.at m)) }
    ensures company { IfOk result IsByItself }
    ensures fault { IfErr result (λ e. e ≡ Fault.NoMemory) }
{
    let image = Image::with_ranges(alloc, geometry, ranges)?;
    PlainMoves::new_at(alloc, &image)
}

// A record of gives for each core, all of them empty.
fn habits_of(alloc: Global, geometry: Geometry) -> Result<Vec<Habit>, Fault>
    ensures cores { IfOk result (λ habits. AreOfCores geometry.cores habits.items) }
    ensures fault { IfErr result (λ e. e ≡ Fault.NoMemory) }
{
    let mut habits = Vec::new(alloc);
    for core in 0..geometry.cores() {
        habits.push(Habit::of(geometry, core))?;
    }
    Ok(habits)
}
