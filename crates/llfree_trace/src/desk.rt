//! The one core of a run on one thread: an allocator, and the list of the blocks taken from it.

ghost use Rattle.std.specs.Prelude.{◌≡◌, ◌≤◌, ◌<◌, ◌∷◌, ◌++◌, [], IfErr, IfOk};
ghost use Rattle.std.specs.Prelude.{Contains, IsPermutation};
ghost use Rattle.std.specs.Option.{option_to_list};
ghost use Rattle.core_frames.specs.Ranges.{IsUnopenedFor, MayHoldBack};
ghost use Rattle.frame_words.specs.Faults.{fault_of};
ghost use Rattle.llfree_trace.specs.Desk.{desk_key, CountsBy, IsLawful, IsSameMemory, MovesToEnd};
ghost use Rattle.llfree_trace.specs.Desk.{RunsFirst};
ghost use Rattle.trace_text.specs.Trace.{cores_in};

use crate::transfers::moved;
use core_frames::{Label, LabelledBlock, LabelledBlocks, PlainAllocator};
use frame_core::{HeldBlock, Image};
use frame_words::{Fault, Geometry, HUGE_ORDER, TakeFault};
use std::alloc::Global;
use std::marker::Model;
use trace_text::{Answer, Line, Reply, Request};

// An allocator, and the list of the blocks that are out.
#[derive(Drop)]
pub(crate) struct PlainDesk {
    allocator: PlainAllocator,
    list: LabelledBlocks,
}

impl Model for PlainDesk {
    ghost use Rattle.llfree_trace.specs.Desk.{HasOut, DeskState};

    ghost Value = { DeskState };

    ghost view = { λ d. record {
      geometry = d.allocator.geometry;
      ranges = d.allocator.ranges;
      list = d.list.entries;
    } };

    ghost invariant = { λ d. HasOut d.allocator d.list.entries };
}

impl PlainDesk {
    ghost use Rattle.held_blocks.specs.Desk.{GivesExactly, GivesOldest, TakesUnder};
    ghost use Rattle.held_blocks.specs.Desk.{blocks_of};
    ghost use Rattle.frame_model.specs.Laws.{AddsUp};
    ghost use Rattle.frame_model.specs.View.{boot_blocks};
    ghost use Rattle.llfree_trace.specs.Outcome.{DeskStep, HoldsFrames, SaysGiven, SaysTaken};
    ghost use Rattle.llfree_trace.specs.Outcome.{LeavesBootFrames, MustRefuseHere};

    // A memory of which nothing is held but what lies past its end and in the ranges.
    pub(crate) fn open(
        alloc: Global,
        geometry: Geometry,
        ranges: &[(u32, u32)],
    ) -> Result<PlainDesk, Fault>
        ensures geometry { IfOk result (λ d. (d.geometry ≡ geometry) × (d.ranges ≡ ranges.now)) }
        ensures empty { IfOk result (λ d. d.list ≡ []) }
        ensures lawful { IfOk result (λ d. MayHoldBack geometry ranges.now) }
        ensures refused { IfErr result (IsUnopenedFor geometry ranges.now) }
    {
        let allocator = PlainAllocator::open_with(alloc, geometry, ranges)?;
        Ok(PlainDesk {
            allocator,
            list: LabelledBlocks::new(alloc),
        })
    }

    // Runs a record, and gives the answer to it, if there is one.
    #[tactic(auto, using(crate::proofs::Running::unanswered))]
    pub(crate) fn run(&mut self, number: u32, line: &Line) -> Result<Option<Answer>, Fault>
        requires core { cores_in line.now ≤ 1 }
        requires lawful { IsLawful self.old }
        ensures run { IfOk result (λ a.
            RunsFirst self.old number (line.now ∷ []) (option_to_list a) self.new) }
        ensures lawful { IfOk result (λ _. IsLawful self.new) }
        ensures memory { IsSameMemory self.old self.new }
        ensures fault { IfErr result (λ e. e ≡ Fault.NoMemory) }
    {
        match line {
            Line::Ask { request, .. } => {
                let reply = self.answer(request)?;
                Ok(Some(answer_to(number, reply)))
            }
            Line::Move { label, .. } => {
                let reply = self.move_to_end(label)?;
                Ok(Some(answer_to(number, reply)))
            }
            Line::Round | Line::Reserve { .. } => Ok(None),
        }
    }

    // Answers a request.
    #[tactic(auto, unfolding(crate::specs::Outcome::DeskStep))]
    fn answer(&mut self, request: &Request) -> Result<Reply, Fault>
        ensures step { IfOk result (λ r. DeskStep MustRefuseHere (desk_key self.old)
            self.old.list request.now r self.new.list) }
        ensures memory { IsSameMemory self.old self.new }
        ensures fault { IfErr result (λ e. e ≡ Fault.NoMemory) }
    {
        match request {
            Request::Take { label, order } => self.take(label, *order),
            Request::Give { label } => Ok(self.give(label)),
            Request::GiveAt { frame, order } => Ok(self.give_at(*frame, *order)),
        }
    }

    // Takes a block. Want of memory is answered before the take.
    fn take(&mut self, label: &Label, order: u8) -> Result<Reply, Fault>
        ensures step { IfOk result (SaysTaken (λ o. TakesUnder MustRefuseHere
            (desk_key self.old) self.old.list label.now order o self.new.list
            × LeavesBootFrames (desk_key self.old) o)) }
        ensures count { IfOk result (CountsBy self.old.list self.new.list) }
        ensures memory { IsSameMemory self.old self.new }
        ensures fault { IfErr result (λ e. e ≡ Fault.NoMemory) }
    {
        if order > HUGE_ORDER {
            return Ok(Reply::Refused(Fault::BadOrder));
        }
        self.list.reserve(label)?;
        match self.allocator.take(0, order) {
            Ok(block) => {
                let frame = block.frame();
                let label = label.again();
                self.list.add(LabelledBlock { label, block });
                Ok(Reply::Taken(frame, order))
            }
            Err(refusal) => Ok(refused(refusal)),
        }
    }

    // Gives the oldest block under a label.
    #[tactic(auto, unfolding(held_blocks::specs::Desk::GivesFirst))]
    fn give(&mut self, label: &Label) -> Reply
        ensures step { SaysGiven (λ o. GivesOldest self.old.list label.now o self.new.list)
            result }
        ensures count { CountsBy self.old.list self.new.list result }
        ensures memory { IsSameMemory self.old self.new }
    {
        match self.list.remove_oldest(label) {
            Some(held) => give_back(&mut self.allocator, held),
            None => Reply::Refused(Fault::NotHeld),
        }
    }

    // Gives exactly this block.
    #[tactic(auto, unfolding(held_blocks::specs::Desk::GivesFirst))]
    fn give_at(&mut self, frame: u32, order: u8) -> Reply
        ensures step { SaysGiven (λ o. GivesExactly self.old.list frame order o self.new.list)
            result }
        ensures count { CountsBy self.old.list self.new.list result }
        ensures memory { IsSameMemory self.old self.new }
    {
        if order > HUGE_ORDER {
            return Reply::Refused(Fault::BadOrder);
        }
        match self.list.remove_exact(frame, order) {
            Some(held) => give_back(&mut self.allocator, held),
            None => Reply::Refused(Fault::NotHeld),
        }
    }

    // Moves the oldest block under a label to the end of the list. Want of memory is answered
    // before the move.
    fn move_to_end(&mut self, label: &Label) -> Result<Reply, Fault>
        requires { IsLawful self.old }
        ensures step { IfOk result (λ r. MovesToEnd self.old.list label.now r self.new.list) }
        ensures count { IfOk result (CountsBy self.old.list self.new.list) }
        ensures lawful { IfOk result (λ _. IsLawful self.new) }
        ensures memory { IsSameMemory self.old self.new }
        ensures fault { IfErr result (λ e. e ≡ Fault.NoMemory) }
    {
        self.list.reserve(label)?;
        let Some(held) = self.list.remove_oldest(label) else {
            return Ok(Reply::Refused(Fault::NotHeld));
        };
        let reply = moved(&held.block);
        self.list.add(held);
        Ok(reply)
    }

    // The words of the memory. Blocks of the list stay held.
    #[tactic(auto, using(crate::proofs::Desks::held_exactly))]
    pub(crate) fn close(self, alloc: Global) -> Result<Image, Fault>
        ensures geometry { IfOk result (λ i. i.geometry ≡ self.geometry) }
        ensures holds { IfOk result (λ i. HoldsFrames (desk_key self) i.words
            (blocks_of self.list ++ boot_blocks (desk_key self))) }
        ensures counters { IfOk result (λ i. AddsUp (desk_key self) i.words) }
        ensures fault { IfErr result (λ e. e ≡ Fault.NoMemory) }
    {
        match self.allocator.close(alloc) {
            Ok(image) => Ok(image),
            Err(_) => Err(Fault::NoMemory),
        }
    }
}

// The answer of the one core to the record with this number.
fn answer_to(number: u32, reply: Reply) -> Answer
    ensures line { result.line ≡ number }
    ensures core { result.core ≡ 0 }
    ensures reply { result.reply ≡ reply }
{
    Answer {
        line: number,
        core: 0,
        reply,
    }
}

// The reply to a take that is refused.
fn refused(refusal: TakeFault) -> Reply
    ensures { result ≡ Reply.Refused (fault_of refusal) }
{
    Reply::Refused(Fault::from(refusal))
}

// Gives a block back that was taken out of the list.
fn give_back(allocator: &mut PlainAllocator, held: LabelledBlock) -> Reply
    requires cores { 0 < allocator.old.geometry.cores }
    requires out { Contains allocator.old.out held.block }
    ensures reply { result ≡ Reply.Given held.block.frame held.block.order }
    ensures out { IsPermutation (held.block ∷ allocator.new.out) allocator.old.out }
    ensures kept { allocator.new.kept ≡ allocator.old.kept }
    ensures geometry { (allocator.new.geometry ≡ allocator.old.geometry)
        × (allocator.new.ranges ≡ allocator.old.ranges) }
{
    let reply = Reply::Given(held.block.frame(), held.block.order());
    allocator.give(0, held.block);
    reply
}
