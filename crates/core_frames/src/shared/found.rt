//! What a search found, in two numbers.

ghost use Rattle.std.specs.Prelude.{◌≡◌, [], None, ◌+◌, ◌<◌, ◌≤◌, ◌||◌, nat_lt, MatchBool, IfSome, IfNone, IfOk, IfErr};
ghost use Rattle.frame_words.specs.Geometry.{huge_order};
ghost use Rattle.frame_words.specs.Runs.{word_order};
ghost use Rattle.frame_model.specs.Block.{block as block_at};
ghost use Rattle.frame_model.specs.View.{holder};
ghost use Rattle.frame_table.specs.Rule.{watch};
ghost use Rattle.core_frames.specs.Bounds.{most_in_own_tree, most_elsewhere};
ghost use Rattle.core_frames.specs.Cores.{memory_of, losses_by, IsCoreOf, StaysCoreOf};
ghost use Rattle.core_frames.specs.Found.{FindsAsCore, HasFound, HasLooked, StaysSureOf, FindsNoneOwn, FindsNoneAtAll};
ghost use Rattle.core_frames.specs.Uses.{HasTaken};

use crate::search::own_tree::take_own;
use crate::shared::allocator::{Allocator, Core};
use crate::takes::search_elsewhere;
use atomic_table::Seat;
use frame_core::{HeldBlock, Moves};
use frame_table::{Block, SharedMoves, Watch};
use frame_words::{HUGE_ORDER, WORD_ORDER};

/// A block of an order that the caller knows: its first frame, and its seat, which has no bytes.
// So the answer of a search is two numbers with what tells whether there is one, and comes back in
// registers: with its order a block would be stored before a locked step and loaded behind it.
#[derive(Drop)]
pub struct Found {
    pub(crate) frame: u32,
    pub(crate) seat: Seat<(), Watch>,
}

impl Found {
    #[inline(always)]
    pub(crate) fn of(block: Block) -> Found
        ensures { (result.frame ≡ block.frame) × (result.seat ≡ block.seat) }
    {
        let frame = block.frame();
        Found {
            frame,
            seat: block.into_seat(),
        }
    }

    #[inline(always)]
    pub(crate) fn with_order(self, order: u8) -> Block
        requires { self.seat.me
            ≡ (watch (holder self.seat.me.0.view.about (block_at self.frame order)) [] None, []) }
        ensures { (result.frame ≡ self.frame) × (result.order ≡ order) × (result.seat ≡ self.seat) }
    {
        Block::of(self.frame, order, self.seat)
    }
}

impl Allocator {
    /// A take without the block's order. Where there is no block, the answer is whether an exchange
    /// was lost: 1, else 0, a number as wide as that of a frame.
    // Kernels take mostly base frames and huge frames: each of these two has a body of its own, in
    // which masks, shifts and the kind of the block are constants. Blocks of several words have theirs
    // apart, since their takes are calls, for which the moves of all the others would lie in memory.
    #[inline(always)]
    pub(crate) fn find(&self, core: &mut Core, order: u8) -> Result<Found, u32>
        requires core { IsCoreOf self.now core.old }
        requires order { order ≤ huge_order }
        ensures { FindsAsCore self.now order result core.old core.new }
    {
        match order {
            0 => self.find_base(core),
            HUGE_ORDER => self.find_huge(core),
            _ if order > WORD_ORDER => self.find_wide(core, order),
            _ => self.find_small(core, order),
        }
    }

    #[inline(never)]
    fn find_base(&self, core: &mut Core) -> Result<Found, u32>
        requires { IsCoreOf self.now core.old }
        ensures { FindsAsCore self.now 0 result core.old core.new }
    {
        self.find_of(core, 0)
    }

    #[inline(never)]
    fn find_huge(&self, core: &mut Core) -> Result<Found, u32>
        requires { IsCoreOf self.now core.old }
        ensures { FindsAsCore self.now huge_order result core.old core.new }
    {
        self.find_of(core, HUGE_ORDER)
    }

    #[inline(never)]
    fn find_wide(&self, core: &mut Core, order: u8) -> Result<Found, u32>
        requires core { IsCoreOf self.now core.old }
        requires order { order ≤ huge_order }
        ensures { FindsAsCore self.now order result core.old core.new }
    {
        self.find_of(core, order)
    }

    // The compiler leaves out what is for larger orders where it sees the bound.
    #[inline(never)]
    fn find_small(&self, core: &mut Core, order: u8) -> Result<Found, u32>
        requires core { IsCoreOf self.now core.old }
        requires order { order ≤ word_order }
        ensures { FindsAsCore self.now order result core.old core.new }
    {
        self.find_of(core, order.min(WORD_ORDER))
    }

    // The own tree, and then the others.
    #[inline(always)]
    fn find_of(&self, core: &mut Core, order: u8) -> Result<Found, u32>
        requires core { IsCoreOf self.now core.old }
        requires order { order ≤ huge_order }
        ensures { FindsAsCore self.now order result core.old core.new }
    {
        let (own, lost) = self.take_own(core, order);
        match own {
            Some(block) => Ok(Found::of(block)),
            None => self.find_elsewhere(core, order, lost),
        }
    }

    // In the own tree, and whether an exchange was lost.
    #[inline(always)]
    fn take_own(&self, core: &mut Core, order: u8) -> (Option<Block>, bool)
        requires core { IsCoreOf self.now core.old }
        requires order { order ≤ huge_order }
        ensures core { StaysCoreOf self.now core.old core.new }
        ensures looks { HasLooked most_in_own_tree result.1 core.old core.new }
        ensures found { IfSome result.0 (λ b. HasTaken self.now order b core.old core.new) }
        ensures none { IfNone result.0 (FindsNoneOwn self.now core.old core.new) }
        ensures sure { StaysSureOf self.now core.old core.new }
    {
        let mut m = SharedMoves::new(&self.table, &mut core.seat);
        let own = take_own(&mut m, core.habit.core, order);
        (own, m.missed())
    }

    // In the other trees. These moves are not those in the own tree, so that those have no address and
    // stay in registers.
    #[inline(never)]
    fn find_elsewhere(&self, core: &mut Core, order: u8, lost: bool) -> Result<Found, u32>
        requires core { IsCoreOf self.now core.old }
        requires order { order ≤ huge_order }
        ensures core { StaysCoreOf self.now core.old core.new }
        ensures looks { HasLooked (most_elsewhere (memory_of self.now))
            (nat_lt (losses_by core.old) (losses_by core.new)) core.old core.new }
        ensures found { IfOk result (λ f. HasFound self.now order f core.old core.new) }
        ensures none { IfErr result (λ _. FindsNoneAtAll self.now order core.old core.new) }
        ensures sure { StaysSureOf self.now core.old core.new }
        ensures lost { IfErr result (λ n. MatchBool (lost || nat_lt (losses_by core.old)
            (losses_by core.new)) (0 < n) (n ≡ 0)) }
    {
        match self.search_others(core, order) {
            (Some(block), _) => Ok(Found::of(block)),
            (None, more) => Err(u32::from(lost || more)),
        }
    }

    #[inline(always)]
    fn search_others(&self, core: &mut Core, order: u8) -> (Option<Block>, bool)
        requires core { IsCoreOf self.now core.old }
        requires order { order ≤ huge_order }
        ensures core { StaysCoreOf self.now core.old core.new }
        ensures looks { HasLooked (most_elsewhere (memory_of self.now)) result.1 core.old core.new }
        ensures found { IfSome result.0 (λ b. HasTaken self.now order b core.old core.new) }
        ensures none { IfNone result.0 (FindsNoneAtAll self.now order core.old core.new) }
        ensures sure { StaysSureOf self.now core.old core.new }
    {
        let mut m = SharedMoves::new(&self.table, &mut core.seat);
        let held = search_elsewhere(&mut m, core.habit.core, order, &mut core.habit.trail);
        (held, m.missed())
    }
}
