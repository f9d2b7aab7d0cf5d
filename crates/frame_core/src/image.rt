//! An image: the words of a table as plain data, with its geometry.

ghost use Rattle.std.specs.Prelude.{◌≡◌, ℕ, ◌+◌, ◌*◌, ◌<◌, ◌≤◌, true, length, slice_index, slice_set};
ghost use Rattle.std.specs.Option.{ForSome};
ghost use Rattle.frame_words.specs.Words.{flag, entry_word, local_word};
ghost use Rattle.frame_model.specs.Key.{key_of, tree_count, size_of};
ghost use Rattle.frame_model.specs.Words.{free_of, huge_of, tree_free_of, reserved_of, rest_of};
ghost use Rattle.frame_model.specs.Words.{bit_word_of, word_count};
ghost use Rattle.frame_model.specs.Words.{with_entry, with_tree, with_local, with_bits};
ghost use Rattle.frame_core.specs.Image.{key_in, FitsTree, SetsPastEnd, IsImage, with_child};

mod fresh;

use super::layout::{bits_place, entry_place, local_place, tree_place};
use frame_words::{
    CHILD_WORDS, Geometry, entry, entry_free, entry_huge, lane, local, local_of, tree as tree_word,
    tree_free, tree_reserved, with_lane,
};
use std::marker::Model;

/// The words of an allocator that nobody is using: what each child, tree and core says.
#[derive(Debug, Drop)]
pub struct Image {
    geometry: Geometry,
    words: Vec<u64>,
}

impl Model for Image {
    ghost use Rattle.frame_model.specs.Key.{key_of};
    ghost use Rattle.frame_core.specs.Image.{Contents, IsImage};

    ghost Value = { Contents };

    ghost view = { λ i. record { geometry = i.geometry; words = i.words.items } };

    ghost invariant = { λ i. IsImage (key_of i.geometry) i.words.items };
}

impl Image {
    pub fn geometry(&self) -> Geometry
        ensures value { result ≡ self.now.geometry }
        ensures in_range { IsImage (key_in self.now) self.now.words }
    {
        self.geometry
    }

    /// The image of these words, in the order of a table's.
    pub fn of_words(geometry: &Geometry, words: Vec<u64>) -> Image
        requires { IsImage (key_of geometry.now) words.items }
        ensures { result ≡ record { geometry = geometry.now; words = words.items } }
    {
        Image {
            geometry: *geometry,
            words,
        }
    }

    /// Becomes the image of these words, in the order of a table's, as many as before. No memory is asked for.
    pub fn copy_from(&mut self, geometry: &Geometry, words: &[u64])
        requires image { IsImage (key_of geometry.now) words.now }
        requires length { length self.old.words ≡ length words.now }
        ensures { self.new ≡ record { geometry = geometry.now; words = words.now } }
    {
        self.geometry = *geometry;
        self.words.as_mut_slice().copy_from_slice(words);
    }

    /// All words, in the order of a table's.
    pub fn words(&self) -> &[u64]
        ensures { result.now ≡ self.now.words }
    {
        self.words.as_slice()
    }

    /// The free frames that the entry of the child counts.
    #[inline]
    #[tactic(auto, unfolding(frame_model::specs::Words::free_of, frame_model::specs::Words::entry_of))]
    pub fn free(&self, child: u32) -> u32
        requires { child < self.now.geometry.children }
        ensures value { result ≡ free_of self.now.words child }
        ensures limit { result ≤ 512 }
    {
        entry_free(lane(self.word_at(entry_place(child)), child))
    }

    /// Is the child taken whole, as a huge frame?
    #[inline]
    #[tactic(auto, unfolding(frame_model::specs::Words::huge_of, frame_model::specs::Words::entry_of))]
    pub fn huge(&self, child: u32) -> bool
        requires { child < self.now.geometry.children }
        ensures { flag result ≡ huge_of self.now.words child }
    {
        entry_huge(lane(self.word_at(entry_place(child)), child))
    }

    /// One of the child's eight bit words. A bit is set where its frame is not free.
    #[inline]
    #[tactic(auto, unfolding(frame_model::specs::Words::bit_word_of))]
    pub fn word(&self, child: u32, word: u32) -> u64
        requires child { child < self.now.geometry.children }
        requires word { word < 8 }
        ensures { result ≡ bit_word_of (key_in self.now) self.now.words (8 * child + word) }
    {
        self.word_at(bits_place(self.geometry(), CHILD_WORDS * child + word))
    }

    /// The free frames that the word of the tree counts.
    #[inline]
    #[tactic(auto, unfolding(frame_model::specs::Words::tree_free_of, frame_model::specs::Words::tree_word_of))]
    pub fn tree_free(&self, tree: u32) -> u32
        requires { tree < tree_count (key_in self.now) }
        ensures value { result ≡ tree_free_of (key_in self.now) self.now.words tree }
        ensures limit { result ≤ size_of (key_in self.now) tree }
    {
        tree_free(self.word_at(tree_place(self.geometry(), tree)))
    }

    /// Has a core reserved the tree?
    #[inline]
    #[tactic(auto, unfolding(frame_model::specs::Words::reserved_of, frame_model::specs::Words::tree_word_of))]
    pub fn tree_reserved(&self, tree: u32) -> bool
        requires { tree < tree_count (key_in self.now) }
        ensures { flag result ≡ reserved_of (key_in self.now) self.now.words tree }
    {
        tree_reserved(self.word_at(tree_place(self.geometry(), tree)))
    }

    /// The tree that the core has reserved and the frames that rest on it, or none.
    #[inline]
    #[tactic(auto, unfolding(frame_model::specs::Words::rest_of, frame_model::specs::Words::local_word_of))]
    pub fn local_at(&self, core: u32) -> Option<(u32, u32)>
        requires { core < self.now.geometry.cores }
        ensures { result ≡ rest_of (key_in self.now) self.now.words core }
    {
        local_of(self.word_at(local_place(self.geometry(), core)))
    }

    /// Writes what the entry of the child says. Only a whole child can be a huge frame.
    #[inline]
    pub fn set_entry(&mut self, child: u32, free: u32, huge: bool)
        requires child { child < self.old.geometry.children }
        requires free { free ≤ 512 }
        requires whole { huge ≡ true → 512 * (child + 1) ≤ self.old.geometry.frames }
        ensures { self.new ≡ record self.old {
          words = with_entry self.old.words child (entry_word free (flag huge));
        } }
    {
        let place = entry_place(child);
        let word = with_lane(self.word_at(place), child, entry(free, huge));
        self.put(place, word);
    }

    /// Writes one of the child's eight bit words. The bits of frames past the end stay set.
    #[inline]
    pub fn set_word(&mut self, child: u32, word: u32, bits: u64)
        requires child { child < self.old.geometry.children }
        requires word { word < 8 }
        requires past_end { SetsPastEnd (key_in self.old) (8 * child + word) bits }
        ensures { self.new ≡ record self.old {
          words = with_bits (key_in self.old) self.old.words (8 * child + word) bits;
        } }
    {
        let place = bits_place(self.geometry(), CHILD_WORDS * child + word);
        self.put(place, bits);
    }

    /// Writes all that is said of the child: its entry and its eight bit words. Only a whole child
    /// can be a huge frame, and the bits of frames past the end stay set.
    pub fn set_child(&mut self, child: u32, free: u32, huge: bool, bits: [u64; 8])
        requires child { child < self.old.geometry.children }
        requires free { free ≤ 512 }
        requires whole { huge ≡ true → 512 * (child + 1) ≤ self.old.geometry.frames }
        requires past_end { (w : ℕ) → w < 8
            → SetsPastEnd (key_in self.old) (8 * child + w) (slice_index bits w) }
        ensures { self.new ≡ record self.old {
          words = with_child (key_in self.old) self.old.words child
              (entry_word free (flag huge)) bits;
        } }
    {
        self.set_entry(child, free, huge);
        for word in 0..8u32 {
            self.set_word(child, word, bits[word as usize]);
        }
    }

    /// Writes what the word of the tree says.
    #[inline]
    pub fn set_tree(&mut self, tree: u32, free: u32, reserved: bool)
        requires tree { tree < tree_count (key_in self.old) }
        requires free { free ≤ size_of (key_in self.old) tree }
        ensures { self.new ≡ record self.old {
          words = with_tree (key_in self.old) self.old.words tree
              (entry_word free (flag reserved));
        } }
    {
        let place = tree_place(self.geometry(), tree);
        self.put(place, tree_word(free, reserved));
    }

    /// Writes the reservation of the core: a tree with the frames that rest on it, or none.
    #[inline]
    pub fn set_local(&mut self, core: u32, rest: Option<(u32, u32)>)
        requires core { core < self.old.geometry.cores }
        requires rest { ForSome rest (FitsTree (key_in self.old)) }
        ensures { self.new ≡ record self.old {
          words = with_local (key_in self.old) self.old.words core (local_word rest);
        } }
    {
        let place = local_place(self.geometry(), core);
        self.put(place, local(rest));
    }

    #[inline]
    fn word_at(&self, place: usize) -> u64
        requires { place < word_count (key_in self.now) }
        ensures word { result ≡ slice_index self.now.words place }
        ensures in_range { IsImage (key_in self.now) self.now.words }
    {
        self.words[place]
    }

    #[inline]
    fn put(&mut self, place: usize, word: u64)
        requires place { place < word_count (key_in self.old) }
        requires in_range { IsImage (key_in self.old) (slice_set self.old.words place word) }
        ensures { self.new ≡ record self.old { words = slice_set self.old.words place word } }
    {
        self.words[place] = word;
    }
}
