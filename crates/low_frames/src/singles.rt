//! Takes of several single frames at a time: one charge for each child, one exchange for each bit word.

ghost use Rattle.std.specs.Prelude.{◌≡◌, ℕ, ◌+◌, ◌/◌, ◌<◌, ◌≤◌, vec_len, vec_capacity};
ghost use Rattle.std.specs.Int.{bit_at};
ghost use Rattle.std.specs.Int.Count.{ones};
ghost use Rattle.low_frames.specs.Bounds.{
  most_in_word_singles,
  most_in_words_singles,
  most_in_child_singles,
  most_in_tree_singles,
};
ghost use Rattle.low_frames.specs.Singles.{
  MayHandOutEach,
  HandsOutEach,
  MayTakeRuns,
  MayTakeSome,
  MayTakeSomeOf,
  TakesSingles,
  ClaimsSome,
  HasTakenSome,
  HasLentSome,
};
ghost use Rattle.low_frames.specs.SinglesAlone.{ClaimsOfWord, ClaimsOfChild, TakesOfChild, TakesOfTree};

use super::attempts::{TRIES, try_charge};
use frame_core::{Moves, Place};
use frame_words::{CHILD_WORDS, TREE_CHILDREN, WORD_FRAMES, entry_free, lane};

/// Takes up to `n` single frames of the tree, lays them behind the others, and answers how many.
#[inline(never)]
pub fn take_some<M: Moves>(m: &mut M, tree: u32, n: u32, out: &mut Vec<M::Held>) -> u32
    requires may { MayTakeSomeOf tree n (M.at m.old) }
    requires room { vec_len out.old + n ≤ vec_capacity out.old }
    ensures takes { TakesSingles M.Held.block_of M.is_exact tree (most_in_tree_singles result)
        (HasLentSome tree result) (TakesOfTree (M.at m.old).key tree result n) result
        out.old.items out.new.items (M.at m.old) (M.at m.new) }
    ensures few { result ≤ n }
    ensures room { vec_capacity out.new ≡ vec_capacity out.old }
    ensures len { vec_len out.new ≡ vec_len out.old + result }
{
    let children = m.geometry().children();
    let mut got = 0;
    for i in 0..TREE_CHILDREN {
        if got == n {
            return got;
        }
        let child = TREE_CHILDREN * tree + i;
        if child < children {
            got += take_some_in(m, child, n - got, out);
        }
    }
    got
}

/// Takes up to `n` single frames of the child. The counter goes down before the bits go up.
#[inline(always)]
fn take_some_in<M: Moves>(m: &mut M, child: u32, n: u32, out: &mut Vec<M::Held>) -> u32
    requires may { MayTakeSome child n (M.at m.old) }
    requires room { vec_len out.old + n ≤ vec_capacity out.old }
    ensures takes { TakesSingles M.Held.block_of M.is_exact (child / 8) (most_in_child_singles result)
        (HasLentSome (child / 8) result) (TakesOfChild (M.at m.old).key child result n) result
        out.old.items out.new.items (M.at m.old) (M.at m.new) }
    ensures few { result ≤ n }
    ensures room { vec_capacity out.new ≡ vec_capacity out.old }
    ensures len { vec_len out.new ≡ vec_len out.old + result }
{
    let entry = lane(m.load(Place::Entry(child)), child);
    let charged = entry_free(entry).min(n);
    if charged == 0 {
        return 0;
    }
    if !try_charge(m, child, charged) {
        return 0;
    }
    let got = take_charged(m, child, charged, out);
    if got < charged {
        m.refund(child, charged - got);
    }
    got
}

/// Takes up to `n` single frames of the child, as many as are charged and paid, its words upward.
#[inline(always)]
fn take_charged<M: Moves>(m: &mut M, child: u32, n: u32, out: &mut Vec<M::Held>) -> u32
    requires may { MayTakeRuns child n (M.at m.old) }
    requires room { vec_len out.old + n ≤ vec_capacity out.old }
    ensures takes { TakesSingles M.Held.block_of M.is_exact (child / 8) (most_in_words_singles result)
        (HasTakenSome child result) (ClaimsOfChild (M.at m.old).key child result n) result
        out.old.items out.new.items (M.at m.old) (M.at m.new) }
    ensures few { result ≤ n }
    ensures room { vec_capacity out.new ≡ vec_capacity out.old }
    ensures len { vec_len out.new ≡ vec_len out.old + result }
{
    let mut got = 0;
    for i in 0..CHILD_WORDS {
        if got == n {
            return got;
        }
        got += take_in_word(m, CHILD_WORDS * child + i, n - got, out);
    }
    got
}

/// Takes up to `n` single frames of the bit word, the lowest, by one exchange.
#[inline(always)]
fn take_in_word<M: Moves>(m: &mut M, word: u32, n: u32, out: &mut Vec<M::Held>) -> u32
    requires may { MayTakeRuns (word / 8) n (M.at m.old) }
    requires room { vec_len out.old + n ≤ vec_capacity out.old }
    ensures takes { TakesSingles M.Held.block_of M.is_exact (word / 8 / 8) (most_in_word_singles result)
        (HasTakenSome (word / 8) result) (ClaimsOfWord (M.at m.old).key word result n) result
        out.old.items out.new.items (M.at m.old) (M.at m.new) }
    ensures few { result ≤ n }
    ensures room { vec_capacity out.new ≡ vec_capacity out.old }
    ensures len { vec_len out.new ≡ vec_len out.old + result }
{
    let mask = try_claim_some(m, word, n);
    hand_out_each(m, word, mask, out);
    mask.count_ones()
}

/// Claims the lowest `n` clear bits of the word, or all where fewer are clear, and answers them; none
/// where all tries were lost.
#[inline(always)]
fn try_claim_some<M: Moves>(m: &mut M, word: u32, n: u32) -> u64
    requires { MayTakeRuns (word / 8) n (M.at m.old) }
    ensures { ClaimsSome M.is_exact word n result (M.at m.old) (M.at m.new) }
{
    for _i in 0..TRIES {
        let seen = m.load(Place::Bits(word));
        let mask = lowest(!seen, n);
        if mask == 0 {
            return 0;
        }
        if m.claim_singles(word, seen, mask) {
            return mask;
        }
    }
    0
}

/// The lowest `n` ones of the word, or all where it has fewer.
#[inline(always)]
fn lowest(word: u64, n: u32) -> u64
    ensures among { (i : ℕ) → bit_at result i ≤ bit_at word i }
    ensures few { ones result ≤ n }
    ensures all { ones result < n → result ≡ word }
{
    let mut rest = word;
    for _i in 0..n {
        if rest == 0 {
            return word;
        }
        rest &= rest - 1;
    }
    word & !rest
}

/// Hands out each of the frames in flight, the lowest first.
#[inline(always)]
fn hand_out_each<M: Moves>(m: &mut M, word: u32, mask: u64, out: &mut Vec<M::Held>)
    requires may { MayHandOutEach word mask (M.at m.old) }
    requires room { vec_len out.old + ones mask ≤ vec_capacity out.old }
    ensures hands_out { HandsOutEach M.Held.block_of M.is_exact word mask
        out.old.items out.new.items (M.at m.old) (M.at m.new) }
    ensures room { vec_capacity out.new ≡ vec_capacity out.old }
    ensures len { vec_len out.new ≡ vec_len out.old + ones mask }
{
    let mut rest = mask;
    while rest != 0 {
        let bit = rest.trailing_zeros();
        out.push_reserved(m.hand_out(WORD_FRAMES * word + bit, 0));
        rest &= rest - 1;
    }
}
