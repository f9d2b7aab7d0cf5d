//! Each move on plain words: what it does to its word and to the parts of the own view.

ghost use Rattle.std.specs.Prelude.{◌≡◌, ℕ, ◌+◌, ◌*◌, ◌^◌, ◌<◌, ◌≤◌, Bool, true, vec_len, slice_index, slice_get};
ghost use Rattle.std.specs.VecDeque.{deque_len, deque_capacity};
ghost use Rattle.frame_words.specs.Geometry.{most_children};
ghost use Rattle.frame_model.specs.Steps.Amounts.{put_in};
ghost use Rattle.frame_model.specs.Block.{block};
ghost use Rattle.frame_model.specs.Key.{key_of};
ghost use Rattle.frame_model.specs.Words.{run, word_count};
ghost use Rattle.frame_core.specs.Moves.{place_of, IsPlace, OfRun};
ghost use Rattle.plain_moves.specs.Plain.{plain_key};

use super::PlainMoves;
use super::amounts::{amount_in, amount_of, tree_in, with_less, with_more};
use super::blocks::{leave, push_singles};
use frame_core::Moves;
use frame_core::layout::{bits_place, entry_place, local_place, tree_place};
use frame_core::turns::{
    charged, collected, dropped, given_whole, local_paid, local_refunded, refunded, reserved,
    taken_whole, tree_paid, unreserved,
};
use frame_model::{FrameBlock, HeldBlock, Place, PlainBlock};
use frame_words::{
    CHILD_FRAMES, CHILD_WORDS, Geometry, HUGE_ORDER, TREE_CHILDREN, WORD_FRAMES, local, local_of,
    tree_free,
};
use std::collections::VecDeque;

// The bit words of a whole tree.
pub(crate) const TREE_WORDS: u32 = CHILD_WORDS * TREE_CHILDREN;

// The number of the word in a table of these sizes.
pub(crate) fn number_of(geometry: Geometry, place: Place) -> usize
    requires { IsPlace (plain_key geometry true) place }
    ensures number { (sealed : Bool) → result ≡ place_of (plain_key geometry sealed) place }
    ensures inside { (sealed : Bool) → result < word_count (plain_key geometry sealed) }
{
    place_number(geometry, place)
}

fn place_number(geometry: Geometry, place: Place) -> usize
    requires { IsPlace (key_of geometry) place }
    ensures number { result ≡ place_of (key_of geometry) place }
    ensures inside { result < word_count (key_of geometry) }
{
    match place {
        Place::Entry(child) => entry_place(child),
        Place::Bits(word) => bits_place(geometry, word),
        Place::Tree(tree) => tree_place(geometry, tree),
        Place::Local(core) => local_place(geometry, core),
    }
}

// The word as it stands.
pub(crate) fn plain_word(words: &Vec<u64>, geometry: Geometry, place: Place) -> u64
    requires place { IsPlace (plain_key geometry true) place }
    requires length { vec_len words.now ≡ word_count (plain_key geometry true) }
    ensures value { (sealed : Bool) → slice_index words.now.items
        (place_of (plain_key geometry sealed) place) ≡ result }
    ensures found { (sealed : Bool) → slice_get words.now.items
        (place_of (plain_key geometry sealed) place) ≡ Some result }
{
    words[number_of(geometry, place)]
}

fn huge_block(child: u32) -> FrameBlock
    requires { child < most_children }
    ensures { result ≡ block (512 * child) 9 }
{
    FrameBlock {
        frame: CHILD_FRAMES * child,
        order: HUGE_ORDER,
    }
}

// The first bit and the order of the run with these bits.
fn run_of(mask: u64) -> (u32, u8)
    requires { (from : ℕ) × ((order : ℕ) × ((mask ≡ run from (2 ^ order))
        × (from + 2 ^ order ≤ 64))) }
    ensures { OfRun mask (λ from order. (result.0 ≡ from) × (result.1 ≡ order)) }
{
    (
        mask.trailing_zeros(),
        mask.count_ones().trailing_zeros() as u8,
    )
}

// The word is among those of the list, each of which it has once.
fn add_word(list: &mut VecDeque<u32>, word: u32)
    requires { deque_len list.old < deque_capacity list.old }
    ensures items { list.new.items ≡ put_in word list.old.items }
    ensures room { deque_capacity list.new ≡ deque_capacity list.old }
{
    if list.contains(&word) {
        return;
    }
    list.push_front_reserved(word);
}

impl Moves for PlainMoves {
    ghost use Rattle.plain_moves.specs.declared.plain.party.Company.{Company};
    ghost use Rattle.plain_moves.specs.Plain.{plain_mover, plain_tick, is_plain_exact};
    ghost use Rattle.plain_moves.specs.PlainLaws.{
      plain_fits,
      plain_outs,
      plain_fills,
      plain_sizes,
      plain_ticks,
    };
    ghost use Rattle.plain_moves.specs.PlainState.{key_by, words_by, view_by};

    type Held = PlainBlock;

    ghost Tie = { Company };

    ghost at = { λ m. plain_mover (key_by m) m.them (words_by m) m.outs.items (view_by m) };

    ghost tick = { plain_tick };

    ghost is_exact = { is_plain_exact };

    ghost fits = { λ m ws e. plain_fits _ _ _ _ _ ws m.agrees e };

    ghost recalls = { λ m ws e. e };

    ghost outs_are_blocks = { λ m b o. plain_outs _ _ _ _ b m.agrees o };

    ghost stays_alone = { λ _ _. tt };

    ghost sizes = { λ m. plain_sizes m.geometry m.sealed };

    ghost fills_own = { λ m none. plain_fills _ _ _ _ m.agrees none };

    ghost ticks = { plain_ticks };

    fn geometry(&self) -> Geometry {
        self.geometry
    }

    fn missed(&self) -> bool {
        false
    }

    fn clear_missed(&mut self) {}

    fn load(&mut self, place: Place) -> u64 {
        self.moves = self.moves.saturating_add(1);
        plain_word(&self.words, self.geometry, place)
    }

    fn charge(&mut self, child: u32, seen: u64, n: u32) -> bool {
        self.charged = with_more(self.charged, child, n);
        self.words[number_of(self.geometry, Place::Entry(child))] = charged(seen, child, n);
        self.moves = self.moves.saturating_add(1);
        true
    }

    fn refund(&mut self, child: u32, n: u32) {
        let found = plain_word(&self.words, self.geometry, Place::Entry(child));
        let left = found.wrapping_add(refunded(child, n));
        self.charged = with_less(self.charged, child, n);
        self.words[number_of(self.geometry, Place::Entry(child))] = left;
        self.moves = self.moves.saturating_add(1);
    }

    fn claim(&mut self, word: u32, seen: u64, mask: u64) -> bool {
        let (bit, order) = run_of(mask);
        self.charged = with_less(self.charged, word / CHILD_WORDS, 1 << order);
        self.paid = with_less(self.paid, word / TREE_WORDS, 1 << order);
        self.own.push_front_reserved(FrameBlock {
            frame: WORD_FRAMES * word + bit,
            order,
        });
        self.words[number_of(self.geometry, Place::Bits(word))] = seen | mask;
        self.moves = self.moves.saturating_add(1);
        true
    }

    fn claim_singles(&mut self, word: u32, seen: u64, mask: u64) -> bool {
        let n = mask.count_ones();
        self.charged = with_less(self.charged, word / CHILD_WORDS, n);
        self.paid = with_less(self.paid, word / TREE_WORDS, n);
        push_singles(&mut self.own, word, mask);
        self.words[number_of(self.geometry, Place::Bits(word))] = seen | mask;
        self.moves = self.moves.saturating_add(1);
        true
    }

    fn release(&mut self, word: u32, mask: u64) {
        let found = plain_word(&self.words, self.geometry, Place::Bits(word));
        let (bit, order) = run_of(mask);
        self.charged = with_more(self.charged, word / CHILD_WORDS, 1 << order);
        self.paid = with_more(self.paid, word / TREE_WORDS, 1 << order);
        leave(
            &mut self.own,
            FrameBlock {
                frame: WORD_FRAMES * word + bit,
                order,
            },
        );
        self.words[number_of(self.geometry, Place::Bits(word))] = found & !mask;
        self.moves = self.moves.saturating_add(1);
    }

    fn take_huge(&mut self, child: u32, seen: u64) -> bool {
        self.paid = with_less(self.paid, child / TREE_CHILDREN, CHILD_FRAMES);
        self.own.push_front_reserved(huge_block(child));
        self.words[number_of(self.geometry, Place::Entry(child))] = taken_whole(seen, child);
        self.moves = self.moves.saturating_add(1);
        true
    }

    fn give_huge(&mut self, child: u32) {
        let found = plain_word(&self.words, self.geometry, Place::Entry(child));
        let left = found.wrapping_sub(given_whole(child));
        self.paid = with_more(self.paid, child / TREE_CHILDREN, CHILD_FRAMES);
        leave(&mut self.own, huge_block(child));
        self.words[number_of(self.geometry, Place::Entry(child))] = left;
        self.moves = self.moves.saturating_add(1);
    }

    fn hand_out(&mut self, frame: u32, order: u8) -> PlainBlock {
        leave(&mut self.own, FrameBlock { frame, order });
        self.outs[frame as usize] = order + 1;
        self.moves = self.moves.saturating_add(1);
        PlainBlock::of(frame, order)
    }

    fn hand_in(&mut self, held: PlainBlock) {
        let frame = held.frame();
        let order = held.order();
        self.own.push_front_reserved(FrameBlock { frame, order });
        self.outs[frame as usize] = 0;
        self.moves = self.moves.saturating_add(1);
    }

    fn tree_pay(&mut self, tree: u32, seen: u64, n: u32) -> bool {
        self.paid = with_more(self.paid, tree, n);
        self.words[number_of(self.geometry, Place::Tree(tree))] = tree_paid(seen, n);
        self.moves = self.moves.saturating_add(1);
        true
    }

    fn tree_refund(&mut self, tree: u32, n: u32) {
        let found = plain_word(&self.words, self.geometry, Place::Tree(tree));
        let left = found.wrapping_add(u64::from(n));
        self.paid = with_less(self.paid, tree, n);
        self.words[number_of(self.geometry, Place::Tree(tree))] = left;
        self.moves = self.moves.saturating_add(1);
    }

    fn reserve(&mut self, tree: u32, seen: u64) -> bool {
        self.paid = amount_of(tree, tree_free(seen));
        self.reserving = Some(tree);
        self.words[number_of(self.geometry, Place::Tree(tree))] = reserved();
        self.moves = self.moves.saturating_add(1);
        true
    }

    fn swap_local(&mut self, core: u32, put: Option<(u32, u32)>) -> Option<(u32, u32)> {
        let found = local_of(plain_word(&self.words, self.geometry, Place::Local(core)));
        self.paid = amount_in(found);
        self.reserving = tree_in(found);
        self.words[number_of(self.geometry, Place::Local(core))] = local(put);
        self.moves = self.moves.saturating_add(1);
        found
    }

    fn unreserve(&mut self, tree: u32, n: u32) {
        let found = plain_word(&self.words, self.geometry, Place::Tree(tree));
        let left = found.wrapping_sub(unreserved(n));
        self.paid = with_less(self.paid, tree, n);
        self.reserving = None;
        self.words[number_of(self.geometry, Place::Tree(tree))] = left;
        self.moves = self.moves.saturating_add(1);
    }

    fn local_pay(&mut self, core: u32, seen: u64, n: u32) -> bool {
        let (tree, _) = local_of(seen).unwrap();
        self.paid = with_more(self.paid, tree, n);
        self.words[number_of(self.geometry, Place::Local(core))] = local_paid(seen, n);
        self.moves = self.moves.saturating_add(1);
        true
    }

    fn local_refund(&mut self, core: u32, seen: u64, n: u32) -> bool {
        let (tree, _) = local_of(seen).unwrap();
        self.paid = with_less(self.paid, tree, n);
        self.words[number_of(self.geometry, Place::Local(core))] = local_refunded(seen, n);
        self.moves = self.moves.saturating_add(1);
        true
    }

    fn collect(&mut self, tree: u32, seen: u64) -> bool {
        self.paid = with_more(self.paid, tree, tree_free(seen));
        self.words[number_of(self.geometry, Place::Tree(tree))] = collected(seen);
        self.moves = self.moves.saturating_add(1);
        true
    }

    fn fill_word(&mut self, word: u32) {
        add_word(&mut self.filled, word);
        self.words[number_of(self.geometry, Place::Bits(word))] = u64::MAX;
        self.moves = self.moves.saturating_add(1);
    }

    fn drop_flag(&mut self, child: u32) {
        let found = plain_word(&self.words, self.geometry, Place::Entry(child));
        let left = found.wrapping_sub(dropped(child));
        let frame = CHILD_FRAMES * child;
        let order = HUGE_ORDER - 1;
        leave(&mut self.own, huge_block(child));
        self.own.push_front_reserved(FrameBlock {
            frame: frame + CHILD_FRAMES / 2,
            order,
        });
        self.own.push_front_reserved(FrameBlock { frame, order });
        self.filled.clear();
        self.words[number_of(self.geometry, Place::Entry(child))] = left;
        self.moves = self.moves.saturating_add(1);
    }
}
