//! Desks: a core with the list of the blocks that it holds.

ghost use Rattle.std.specs.Prelude.{◌≡◌, ◌<◌, ◌≤◌, ◌+◌, [], pos, ◌+ℤ◌, ◌-ℤ◌, length};
ghost use Rattle.std.specs.Prelude.{IfOk, IfErr, Contains};
ghost use Rattle.frame_model.specs.Block.{block as block_at};
ghost use Rattle.frame_core.specs.Mover.{LiesInside};
ghost use Rattle.frame_table.specs.Keeping.{HasRecalled};
ghost use Rattle.frame_table.specs.Seats.{block_in};
ghost use Rattle.held_blocks.specs.Desk.{Lays, MayFail, TakesUnder, GivesOldest, GivesExactly};
ghost use Rattle.held_blocks.specs.Desk.{GivesFirst};
ghost use Rattle.held_blocks.specs.LabelledBlocks.{IsUnder, IsTheBlock};
ghost use Rattle.low_frames.specs.Outcomes.{HasNoBootFrame};
ghost use Rattle.core_frames.specs.Bounds.{most_moves, most_in_give};
ghost use Rattle.core_frames.specs.Cores.{memory_of, view_in, kept_by, lent_by, moves_by};
ghost use Rattle.core_frames.specs.Cores.{IsOutOf, IsCoreOf, StaysCoreOf};
ghost use Rattle.core_frames.specs.Uses.{GivesAsCore, IsRefusedAtDesk, LendsAsMany};
ghost use Rattle.core_frames.specs.Desks.{list_of, core_of, IsEntryAt, IsDeskOf, StaysDeskOf, IsLeftAlone};

use crate::shared::allocator::{Allocator, Core};
use frame_core::{HeldBlock, PlainBlock};
use frame_table::Block;
use frame_words::{Fault, HUGE_ORDER};
use held_blocks::{Label, LabelledBlock, LabelledBlocks};
use std::alloc::Global;

/// A core with the list of the blocks that it holds, each under a label, oldest first. Its core
/// keeps exactly the blocks of the list.
///
/// Each call but `at` takes O(log n) steps of its own for n blocks, on the average over all calls.
#[derive(Drop)]
pub struct Desk {
    pub(crate) core: Core,
    pub(crate) list: LabelledBlocks,
}

impl Desk {
    /// A desk that holds nothing, of the allocator that its core belongs to. It takes no memory.
    pub fn new(alloc: Global, core: Core) -> Desk
        requires { kept_by core ≡ [] }
        ensures desk { (a : Allocator) → IsCoreOf a core → IsDeskOf a result }
        ensures list { list_of result ≡ [] }
        ensures core { core_of result ≡ core }
    {
        Desk {
            core,
            list: LabelledBlocks::new(alloc),
        }
    }

    /// How many blocks there are.
    pub fn len(&self) -> usize
        ensures { result ≡ length (list_of self.now) }
    {
        self.list.len()
    }

    /// The label, the first frame and the order of the entry at a place, 0 the oldest. It walks
    /// through the list up to there.
    pub fn at(&self, place: usize) -> (&Label, u32, u8)
        requires { place < length (list_of self.now) }
        ensures { IsEntryAt (list_of self.now) place result.0.now (block_at result.1 result.2) }
    {
        let entry = self.list.at(place);
        (&entry.label, entry.block.frame(), entry.block.order())
    }

    /// Takes a block of `2^order` frames, which goes last, under the label. Want of memory is
    /// answered before any step.
    pub fn take(
        &mut self,
        allocator: &Allocator,
        label: Label,
        order: u8,
    ) -> Result<(u32, u8), Fault>
        requires { IsDeskOf allocator.now self.old }
        ensures desk { StaysDeskOf allocator.now self.old self.new }
        ensures takes { TakesUnder MayFail (memory_of allocator.now) (list_of self.old) label order
            result (list_of self.new) }
        ensures no_boot_frame { IfOk result (λ b.
            HasNoBootFrame (memory_of allocator.now) (block_at b.0 b.1)) }
        ensures inside { IfOk result (λ b.
            LiesInside (memory_of allocator.now) (block_at b.0 b.1)) }
        ensures core { LendsAsMany (most_moves (memory_of allocator.now) + 1)
            (core_of self.old) (core_of self.new) }
        ensures why { IfErr result (IsRefusedAtDesk allocator.now order
            (core_of self.old) (core_of self.new)) }
    {
        if order > HUGE_ORDER {
            return Err(Fault::BadOrder);
        }
        // Room first: a block that was taken is never lost for want of it.
        if self.list.reserve(&label).is_err() {
            return Err(Fault::NoMemory);
        }
        match allocator.take(&mut self.core, order) {
            Ok(block) => {
                let (frame, order) = allocator.keep(&mut self.core, block);
                let block = PlainBlock::of(frame, order);
                self.list.add(LabelledBlock { label, block });
                Ok((frame, order))
            }
            Err(refusal) => Err(Fault::from(refusal)),
        }
    }

    /// Gives the oldest block under the label. No memory is needed, and a refusal makes no step.
    #[tactic(auto, using(crate::proofs::DeskLemmas::given_ok, crate::proofs::DeskLemmas::given_err))]
    pub fn give(&mut self, allocator: &Allocator, label: &Label) -> Result<(u32, u8), Fault>
        requires { IsDeskOf allocator.now self.old }
        ensures desk { StaysDeskOf allocator.now self.old self.new }
        ensures gives { GivesOldest (list_of self.old) label.now result (list_of self.new) }
        ensures core { LendsAsMany (most_in_give + 1) (core_of self.old) (core_of self.new) }
        ensures refused { IfErr result (λ e. IsLeftAlone self.old self.new) }
    {
        match self.lift(allocator, label) {
            Ok(oldest) => Ok(give_back(allocator, &mut self.core, oldest)),
            Err(refusal) => Err(refusal),
        }
    }

    /// Gives exactly this block. No memory is needed, and a refusal makes no step.
    #[tactic(auto, using(crate::proofs::DeskLemmas::given_ok, crate::proofs::DeskLemmas::given_err))]
    pub fn give_at(
        &mut self,
        allocator: &Allocator,
        frame: u32,
        order: u8,
    ) -> Result<(u32, u8), Fault>
        requires { IsDeskOf allocator.now self.old }
        ensures desk { StaysDeskOf allocator.now self.old self.new }
        ensures gives { GivesExactly (list_of self.old) frame order result (list_of self.new) }
        ensures core { LendsAsMany (most_in_give + 1) (core_of self.old) (core_of self.new) }
        ensures refused { IfErr result (λ e. IsLeftAlone self.old self.new) }
    {
        if order > HUGE_ORDER {
            return Err(Fault::BadOrder);
        }
        match self.lift_exactly(allocator, frame, order) {
            Ok(block) => Ok(give_back(allocator, &mut self.core, block)),
            Err(refusal) => Err(refusal),
        }
    }

    /// Takes the oldest block under the label out of the list. No memory is needed, and a refusal
    /// makes no step.
    pub fn lift(&mut self, allocator: &Allocator, label: &Label) -> Result<Block, Fault>
        requires { IsDeskOf allocator.now self.old }
        ensures desk { StaysDeskOf allocator.now self.old self.new }
        ensures lifts { GivesFirst block_in (IsUnder label.now) (list_of self.old) result
            (list_of self.new) }
        ensures block { IfOk result (IsOutOf allocator.now) }
        ensures lent { IfOk result (λ b.
            lent_by (core_of self.new) ≡ lent_by (core_of self.old) +ℤ pos 1) }
        ensures moves { moves_by (core_of self.new) ≤ moves_by (core_of self.old) + 1 }
        ensures refused { IfErr result (λ e. IsLeftAlone self.old self.new) }
    {
        match self.list.remove_oldest(label) {
            Some(oldest) => Ok(recall(allocator, &mut self.core, oldest)),
            None => Err(Fault::NotHeld),
        }
    }

    // Takes exactly this block out of the list.
    fn lift_exactly(&mut self, allocator: &Allocator, frame: u32, order: u8) -> Result<Block, Fault>
        requires { IsDeskOf allocator.now self.old }
        ensures desk { StaysDeskOf allocator.now self.old self.new }
        ensures lifts { GivesFirst block_in (IsTheBlock frame order) (list_of self.old) result
            (list_of self.new) }
        ensures block { IfOk result (IsOutOf allocator.now) }
        ensures lent { IfOk result (λ b.
            lent_by (core_of self.new) ≡ lent_by (core_of self.old) +ℤ pos 1) }
        ensures moves { moves_by (core_of self.new) ≤ moves_by (core_of self.old) + 1 }
        ensures refused { IfErr result (λ e. IsLeftAlone self.old self.new) }
    {
        match self.list.remove_exact(frame, order) {
            Some(entry) => Ok(recall(allocator, &mut self.core, entry)),
            None => Err(Fault::NotHeld),
        }
    }

    /// Puts a block last, under the label. Want of memory hands it back, and no step was made.
    pub fn lay(&mut self, allocator: &Allocator, label: Label, block: Block) -> Result<(), Block>
        requires desk { IsDeskOf allocator.now self.old }
        requires block { IsOutOf allocator.now block }
        ensures desk { StaysDeskOf allocator.now self.old self.new }
        ensures lays { IfOk result (λ _.
            Lays (list_of self.old) label (block_in block) (list_of self.new)) }
        ensures lent { IfOk result (λ _.
            lent_by (core_of self.new) ≡ lent_by (core_of self.old) -ℤ pos 1) }
        ensures moves { moves_by (core_of self.new) ≤ moves_by (core_of self.old) + 2 }
        ensures refused { IfErr result (λ same.
            (same ≡ block) × IsLeftAlone self.old self.new) }
    {
        if self.list.reserve(&label).is_err() {
            return Err(block);
        }
        let (frame, order) = allocator.keep(&mut self.core, block);
        // The block came from another core: a load shows that it is apart from those of the list.
        allocator.look(&mut self.core);
        self.list.add(LabelledBlock {
            label,
            block: PlainBlock::of(frame, order),
        });
        Ok(())
    }

    /// The core, which keeps exactly the blocks of the list.
    pub fn finish(self) -> Core
        ensures { result ≡ core_of self }
    {
        self.core
    }
}

// Hands out the block of an entry that left the list.
fn recall(allocator: &Allocator, core: &mut Core, entry: LabelledBlock) -> Block
    requires core { IsCoreOf allocator.now core.old }
    requires kept { Contains (kept_by core.old) entry.block }
    ensures core { StaysCoreOf allocator.now core.old core.new }
    ensures recalls { HasRecalled entry.block (view_in core.old) (view_in core.new) }
    ensures block { (block_in result ≡ entry.block) × IsOutOf allocator.now result }
{
    allocator.recall(core, entry.block.frame(), entry.block.order())
}

// Gives a block back, and says which it was.
fn give_back(allocator: &Allocator, core: &mut Core, block: Block) -> (u32, u8)
    requires core { IsCoreOf allocator.now core.old }
    requires block { IsOutOf allocator.now block }
    ensures gives { GivesAsCore allocator.now (block_in block) core.old core.new }
    ensures answer { block_at result.0 result.1 ≡ block_in block }
{
    let answer = (block.frame(), block.order());
    allocator.give(core, block);
    answer
}
