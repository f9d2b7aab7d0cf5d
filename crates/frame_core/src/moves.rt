//! The moves of one seat: the atomic steps that takes and gives are made of.

ghost use Rattle.std.specs.Prelude.{◌≡◌, ℕ, List, [], Some, Option};
ghost use Rattle.frame_model.specs.Key.{AreSizes};
ghost use Rattle.frame_model.specs.Block.{block, IsBlock};
ghost use Rattle.frame_model.specs.Steps.{
  charge,
  refund,
  claim,
  claim_singles,
  take_huge,
  tree_pay,
  tree_refund,
  reserve,
  swap_local,
  unreserve,
  local_pay,
  local_refund,
  collect,
  fill_word,
};
ghost use Rattle.frame_core.specs.Moves.{HasSizes, release_run, give_whole, drop_whole, OfRun, OfSomeRun};
ghost use Rattle.frame_core.specs.Mover.{
  Mover,
  Clears,
  MayLoad,
  Loads,
  MayTry,
  Tries,
  MayMake,
  Makes,
  Swaps,
  MayHandOut,
  HandsOut,
  MayHandIn,
  HandsIn,
  FitsOthers,
  Ticks,
};

use frame_model::{HeldBlock, Place};
use frame_words::Geometry;

/// What one seat may do: one atomic step on one word, or handing a block out or taking it in.
///
/// An exchange compares the whole word with `seen`, which must be what the last load of it gave,
/// and answers whether it was made; where it was lost, no word has changed. Every other step is
/// made.
///
/// `n` counts frames. No move takes memory.
pub trait Moves {
    /// A block that was handed out.
    type Held: HeldBlock;

    // What ties a mover to the seat that it steps through.
    ghost Tie: { Type 0 };

    // What it has.
    ghost at: { Self → Mover Tie Self.Held };

    // How counts of moves go up by one.
    ghost tick: { ℕ → ℕ };

    // Counts up to this one are exact.
    ghost is_exact: { ℕ → Type 0 };

    /// The sizes of the memory.
    fn geometry(&self) -> Geometry
        ensures { HasSizes (at self.now).key result };

    /// Was an exchange lost since the last `clear_missed` or, without one, since this was made?
    fn missed(&self) -> bool
        ensures { result ≡ (at self.now).missed };

    fn clear_missed(&mut self)
        ensures { Clears (at self.old) (at self.new) };

    /// The word as it stands.
    fn load(&mut self, place: Place) -> u64
        requires { MayLoad place (at self.old) }
        ensures { Loads tick place result (at self.old) (at self.new) };

    /// Takes `n` frames off the entry of the child.
    fn charge(&mut self, child: u32, seen: u64, n: u32) -> bool
        requires { MayTry (charge child seen n) seen (at self.old) }
        ensures { Tries tick (charge child seen n) seen result (at self.old) (at self.new) };

    /// Puts `n` charged frames back into the entry of the child.
    fn refund(&mut self, child: u32, n: u32)
        requires { MayMake (refund child n) (at self.old) }
        ensures { Makes tick (refund child n) (at self.old) (at self.new) };

    /// Sets the bits of a run in a bit word: its frames, charged and paid before, are in flight.
    fn claim(&mut self, word: u32, seen: u64, mask: u64) -> bool
        requires { OfSomeRun mask (λ from order.
            MayTry (claim word seen from order) seen (at self.old)) }
        ensures { OfRun mask (λ from order.
            Tries tick (claim word seen from order) seen result (at self.old) (at self.new)) };

    /// Sets bits of a bit word: their frames, charged and paid before, are in flight one by one.
    fn claim_singles(&mut self, word: u32, seen: u64, mask: u64) -> bool
        requires { MayTry (claim_singles word seen mask) seen (at self.old) }
        ensures { Tries tick (claim_singles word seen mask) seen result (at self.old) (at self.new) };

    /// Clears the bits of a run in a bit word: its frames, in flight before, are charged and paid.
    fn release(&mut self, word: u32, mask: u64)
        requires { OfSomeRun mask (λ from order.
            MayMake (release_run word from order) (at self.old)) }
        ensures { OfRun mask (λ from order.
            Makes tick (release_run word from order) (at self.old) (at self.new)) };

    /// Takes the child whole, as a huge frame. Its frames were paid.
    fn take_huge(&mut self, child: u32, seen: u64) -> bool
        requires { MayTry (take_huge child seen) seen (at self.old) }
        ensures { Tries tick (take_huge child seen) seen result (at self.old) (at self.new) };

    /// Gives the huge frame back. Its frames are paid then.
    fn give_huge(&mut self, child: u32)
        requires { MayMake (give_whole child) (at self.old) }
        ensures { Makes tick (give_whole child) (at self.old) (at self.new) };

    /// Hands out a block whose frames are in flight.
    fn hand_out(&mut self, frame: u32, order: u8) -> Self::Held
        requires { MayHandOut (block frame order) (at self.old) }
        ensures { HandsOut tick Self.Held.block_of (block frame order) result
            (at self.old) (at self.new) };

    /// Takes in a block that was handed out: its frames are in flight.
    fn hand_in(&mut self, held: Self::Held)
        requires { MayHandIn (Self.Held.block_of held) held (at self.old) }
        ensures { HandsIn tick Self.Held.block_of held (at self.old) (at self.new) };

    /// Pays `n` frames from the word of the tree.
    fn tree_pay(&mut self, tree: u32, seen: u64, n: u32) -> bool
        requires { MayTry (tree_pay tree seen n) seen (at self.old) }
        ensures { Tries tick (tree_pay tree seen n) seen result (at self.old) (at self.new) };

    /// Puts `n` paid frames back into the word of the tree.
    fn tree_refund(&mut self, tree: u32, n: u32)
        requires { MayMake (tree_refund tree n) (at self.old) }
        ensures { Makes tick (tree_refund tree n) (at self.old) (at self.new) };

    /// Reserves the tree: all of its free frames are paid.
    fn reserve(&mut self, tree: u32, seen: u64) -> bool
        requires { MayTry (reserve tree seen) seen (at self.old) }
        ensures { Tries tick (reserve tree seen) seen result (at self.old) (at self.new) };

    /// Puts a reserved tree with all that is paid on it into the local word of the core, or
    /// nothing; answers what stood there, which is then reserved and paid.
    fn swap_local(&mut self, core: u32, put: Option<(u32, u32)>) -> Option<(u32, u32)>
        requires { MayMake (swap_local core put) (at self.old) }
        ensures { Swaps tick core put result (at self.old) (at self.new) };

    /// Ends the reservation of the tree, and puts `n` paid frames back into its word.
    fn unreserve(&mut self, tree: u32, n: u32)
        requires { MayMake (unreserve tree n) (at self.old) }
        ensures { Makes tick (unreserve tree n) (at self.old) (at self.new) };

    /// Pays `n` frames from the reservation in the local word of the core.
    fn local_pay(&mut self, core: u32, seen: u64, n: u32) -> bool
        requires { MayTry (local_pay core seen n) seen (at self.old) }
        ensures { Tries tick (local_pay core seen n) seen result (at self.old) (at self.new) };

    /// Puts `n` paid frames back into the reservation in the local word of the core.
    fn local_refund(&mut self, core: u32, seen: u64, n: u32) -> bool
        requires { MayTry (local_refund core seen n) seen (at self.old) }
        ensures { Tries tick (local_refund core seen n) seen result (at self.old) (at self.new) };

    /// Pays all free frames of the tree, and leaves it reserved or not as it was.
    fn collect(&mut self, tree: u32, seen: u64) -> bool
        requires { MayTry (collect tree seen) seen (at self.old) }
        ensures { Tries tick (collect tree seen) seen result (at self.old) (at self.new) };

    /// Sets all bits of a word of a huge frame in flight.
    fn fill_word(&mut self, word: u32)
        requires { MayMake (fill_word word) (at self.old) }
        ensures { Makes tick (fill_word word) (at self.old) (at self.new) };

    /// Makes two blocks of order 8 in flight of a huge frame whose eight bit words are all filled.
    fn drop_flag(&mut self, child: u32)
        requires { MayMake (drop_whole child) (at self.old) }
        ensures { Makes tick (drop_whole child) (at self.old) (at self.new) };

    // Where the words are known, they fit with the own view and those of all others.
    ghost fits: { (m : Self) (ws : List ℕ) → (at m).words ≡ Some ws → ∥ FitsOthers (at m) ws ∥₁ };

    // Words that are known are recalled.
    ghost recalls: { (m : Self) (ws : List ℕ) → (at m).words ≡ Some ws → (at m).recalled ≡ Some ws };

    ghost outs_are_blocks: { (m : Self) (b : Self.Held) → (at m).is_out b
        → IsBlock (at m).key (Self.Held.block_of b) };

    ghost stays_alone: { (m : Self) → (at m).is_alone → (at m).is_undisturbed };

    ghost sizes: { (m : Self) → AreSizes (at m).key };

    // Who has no block in flight has filled no word.
    ghost fills_own: { (m : Self) → (at m).view.own ≡ [] → (at m).view.filled ≡ [] };

    ghost ticks: { Ticks tick is_exact };
}
