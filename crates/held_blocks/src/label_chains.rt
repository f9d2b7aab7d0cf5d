//! Chains through the places of a list: from each place to a later one with the same key.
//! A step of a chain passes no live place with its key, so a place that dies changes no chain.

ghost use Rattle.std.specs.Prelude.{◌≡◌, ◌<◌, ◌++◌, ◌∷◌, [], true, min, length};
ghost use Rattle.std.specs.Prelude.{IfSome, IfNone, OnOk, Some, slice_set, vec_len, vec_capacity};
ghost use Rattle.held_blocks.specs.LabelChains.{Chained, ChainsHaveRoom, Knows, IsFirstLive, NoneLive};
ghost use Rattle.held_blocks.specs.LabelChains.{AddsPlace, IsBlank, IsSame, KeepsKeys, SetsEnds};
ghost use Rattle.held_blocks.specs.LabelChains.{WalksOn, is_live, first_at, last_at};

use std::alloc::{AllocError, Global};
use std::collections::BTreeMap;

/// The place of a chain that has none.
pub(crate) const NOWHERE: usize = usize::MAX;

/// Where the chain of a key begins and ends: none of its places that lives stands before `first`.
#[derive(Clone, Copy)]
pub(crate) struct Ends {
    pub(crate) first: usize,
    pub(crate) last: usize,
}

/// The key of each place, the next place of each, and the ends of the chain of each key.
#[derive(Drop)]
pub(crate) struct LabelChains {
    pub(crate) keys: Vec<u128>,
    pub(crate) next: Vec<usize>,
    pub(crate) ends: BTreeMap<u128, Ends>,
}

impl LabelChains {
    /// Chains through no places.
    pub(crate) fn new(alloc: Global) -> LabelChains
        ensures { IsBlank result }
    {
        LabelChains {
            keys: Vec::new(alloc),
            next: Vec::new(alloc),
            ends: BTreeMap::new(alloc),
        }
    }

    /// Makes room for so many more places, and gives a key its chain, through no place, if it has
    /// none.
    pub(crate) fn make_ready(&mut self, more: usize, key: u128) -> Result<(), AllocError>
        ensures same { IsSame self.old self.new }
        ensures room { OnOk result (ChainsHaveRoom self.new more) }
        ensures knows { OnOk result (Knows self.new key) }
    {
        self.keys.reserve(more)?;
        self.next.reserve(more)?;
        self.know(key)
    }

    /// Gives a key its chain, through no place, if it has none.
    pub(crate) fn know(&mut self, key: u128) -> Result<(), AllocError>
        ensures same { IsSame self.old self.new }
        ensures knows { OnOk result (Knows self.new key) }
    {
        if self.ends.contains_key(&key) {
            return Ok(());
        }
        let none = Ends {
            first: NOWHERE,
            last: NOWHERE,
        };
        match self.ends.insert(key, none) {
            Ok(_) => Ok(()),
            Err(_) => Err(AllocError),
        }
    }

    /// The first live place with a key; the chain of the key then begins there.
    pub(crate) fn first_live<T>(&mut self, slots: &[Option<T>], key: u128) -> Option<usize>
        requires { Chained self.old slots.now }
        ensures chained { Chained self.new slots.now }
        ensures kept { KeepsKeys self.old self.new }
        ensures none { IfNone result (NoneLive self.old.keys.items slots.now key) }
        ensures found { IfSome result (IsFirstLive self.old.keys.items slots.now key) }
    {
        let ends = self.ends.get(&key).copied()?;
        let at = self.walk(slots, key, ends.first);
        self.begin_at(key, at);
        if at < slots.len() { Some(at) } else { None }
    }

    // The first live place with the key from this one on.
    fn walk<T>(&self, slots: &[Option<T>], key: u128, start: usize) -> usize
        requires chained { Chained self.now slots.now }
        requires begun { WalksOn self.now slots.now key start }
        ensures come { WalksOn self.now slots.now key result }
        ensures live { result < length slots.now → is_live slots.now result ≡ true }
    {
        let mut at = start;
        while at < slots.len() && slots[at].is_none() {
            at = self.next[at];
        }
        at
    }

    // Lets the chain of a key begin at this place.
    fn begin_at(&mut self, key: u128, at: usize)
        requires { Knows self.old key }
        ensures { SetsEnds key at (last_at self.old key) self.old self.new }
    {
        if let Some(ends) = self.ends.get_mut(&key) {
            ends.first = at;
        }
    }

    /// Puts a place with a key last, and leads the chain of the key on to it.
    pub(crate) fn put_last<T>(&mut self, slots: &[Option<T>], key: u128)
        requires chained { Chained self.old slots.now }
        requires room { ChainsHaveRoom self.old 1 }
        requires knows { Knows self.old key }
        ensures chained { (x : T) → Chained self.new (slots.now ++ Some x ∷ []) }
        ensures adds { AddsPlace key self.old self.new }
    {
        let last = self.end_at(key, slots.len());
        lead_on(&mut self.next, last, slots.len());
        self.keys.push_reserved(key);
        self.next.push_reserved(NOWHERE);
    }

    // Lets the chain of a key end at this place, and begin there if it had none; where it ended.
    fn end_at(&mut self, key: u128, at: usize) -> usize
        requires { Knows self.old key }
        ensures was { result ≡ last_at self.old key }
        ensures ends { SetsEnds key (min (first_at self.old key) at) at self.old self.new }
    {
        match self.ends.get_mut(&key) {
            Some(ends) => {
                let last = ends.last;
                ends.first = ends.first.min(at);
                ends.last = at;
                last
            }
            None => unreachable!(),
        }
    }
}

// Leads a place on to another one; nothing where it is no place.
fn lead_on(next: &mut Vec<usize>, last: usize, at: usize)
    ensures items { next.new.items ≡ slice_set next.old.items last at }
    ensures len { vec_len next.new ≡ vec_len next.old }
    ensures room { vec_capacity next.new ≡ vec_capacity next.old }
{
    if last < next.len() {
        next[last] = at;
    }
}
