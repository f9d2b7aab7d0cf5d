//! The image of a memory that nobody used yet: first the bits, then the counters from them.

ghost use Rattle.std.specs.Prelude.{◌≡◌, ℕ, ◌+◌, ◌-◌, ◌*◌, ◌<◌, ◌≤◌, IfOk, IfErr};
ghost use Rattle.std.specs.List.{sum_by};
ghost use Rattle.frame_model.specs.Key.{key_of, sealed_key, frame_count, tree_count, children_of, size_of, AreRanges};
ghost use Rattle.frame_model.specs.Words.{run, free_of, set_of};
ghost use Rattle.frame_core.specs.Image.{key_in, IsImage, IsAllFree, IsUncounted, IsCountedBelow, HasSameBits, SetsRun, SetsRanges};
ghost use Rattle.frame_core.specs.Image.{blank_words, bits_past as the_bits_past};
ghost use Rattle.frame_model.specs.Openings.{IsSealedOpening};

use super::Image;
use crate::layout::{bits_place, word_count};
use frame_words::{CHILD_FRAMES, CHILD_WORDS, Fault, Geometry, TREE_CHILDREN, WORD_FRAMES};
use std::alloc::Global;

impl Image {
    /// No frame is held but those past the end, and no core has a reservation. Refused only for
    /// lack of memory.
    pub fn new(alloc: Global, geometry: &Geometry) -> Result<Image, Fault>
        ensures geometry { IfOk result (λ i. i.geometry ≡ geometry.now) }
        ensures opens { IfOk result (λ i. IsSealedOpening (key_of geometry.now) i.words) }
        ensures all_free { IfOk result (λ i. geometry.now.frames ≡ frame_count (key_of geometry.now)
            → IsAllFree (key_of geometry.now) i.words) }
        ensures in_range { IfOk result (λ i. IsImage (key_of geometry.now) i.words) }
        ensures err { IfErr result (λ e. e ≡ Fault.NoMemory) }
    {
        Image::with_ranges(alloc, geometry, &[])
    }

    /// The same, and the frames of the ranges are held too; a range is its first frame and how
    /// many frames it has.
    pub fn with_ranges(
        alloc: Global,
        geometry: &Geometry,
        ranges: &[(u32, u32)],
    ) -> Result<Image, Fault>
        requires { AreRanges 0 geometry.now.frames ranges.now }
        ensures geometry { IfOk result (λ i. i.geometry ≡ geometry.now) }
        ensures opens { IfOk result (λ i.
            IsSealedOpening (sealed_key geometry.now ranges.now) i.words) }
        ensures in_range { IfOk result (λ i. IsImage (key_of geometry.now) i.words) }
        ensures err { IfErr result (λ e. e ≡ Fault.NoMemory) }
    {
        let mut words = vec![in alloc; 0; word_count(*geometry)]?;
        let frames = geometry.frames();
        let past = CHILD_FRAMES * geometry.children() - frames;
        hold(&mut words, *geometry, frames, past);
        hold_ranges(&mut words, *geometry, ranges);
        let mut image = Image {
            geometry: *geometry,
            words,
        };
        image.count_children();
        image.count_trees();
        Ok(image)
    }

    /// Nothing is said of any part, but that the frames past the end are held: every counter is 0.
    /// Refused only for lack of memory.
    pub fn blank(alloc: Global, geometry: &Geometry) -> Result<Image, Fault>
        ensures geometry { IfOk result (λ i. i.geometry ≡ geometry.now) }
        ensures words { IfOk result (λ i. i.words ≡ blank_words (key_of geometry.now)) }
        ensures err { IfErr result (λ e. e ≡ Fault.NoMemory) }
    {
        let mut words = vec![in alloc; 0; bits_place(*geometry, 0)]?;
        for word in 0..CHILD_WORDS * geometry.children() {
            words.push(bits_past(*geometry, word))?;
        }
        Ok(Image {
            geometry: *geometry,
            words,
        })
    }

    // Each child counts as free what is not set.
    fn count_children(&mut self)
        requires { IsCountedBelow (key_in self.old) self.old.words 0 0 }
        ensures geometry { self.new.geometry ≡ self.old.geometry }
        ensures bits { HasSameBits (key_in self.old) self.old.words self.new.words }
        ensures counted { IsCountedBelow (key_in self.old) self.new.words
            self.old.geometry.children 0 }
    {
        let geometry = self.geometry();
        for child in 0..geometry.children {
            let set = self.set_frames(child);
            self.set_entry(child, CHILD_FRAMES - set, false);
        }
    }

    // Each tree counts as free what its children count.
    fn count_trees(&mut self)
        requires { IsCountedBelow (key_in self.old) self.old.words self.old.geometry.children 0 }
        ensures geometry { self.new.geometry ≡ self.old.geometry }
        ensures bits { HasSameBits (key_in self.old) self.old.words self.new.words }
        ensures counted { IsCountedBelow (key_in self.old) self.new.words
            self.old.geometry.children (tree_count (key_in self.old)) }
        ensures in_range { IsImage (key_in self.old) self.new.words }
    {
        let geometry = self.geometry();
        for tree in 0..geometry.trees() {
            let free = self.free_frames(tree);
            self.set_tree(tree, free, false);
        }
    }

    /// How many frames of the child are set.
    pub fn set_frames(&self, child: u32) -> u32
        requires { child < self.now.geometry.children }
        ensures value { result ≡ set_of (key_in self.now) self.now.words child }
        ensures limit { result ≤ 512 }
    {
        let mut set = 0;
        for word in 0..CHILD_WORDS {
            set += self.word(child, word).count_ones();
        }
        set
    }

    /// How many frames the children of the tree count as free.
    pub fn free_frames(&self, tree: u32) -> u32
        requires { tree < tree_count (key_in self.now) }
        ensures value { result
            ≡ sum_by (free_of self.now.words) (children_of (key_in self.now) tree) }
        ensures limit { result ≤ size_of (key_in self.now) tree }
    {
        let first = TREE_CHILDREN * tree;
        let end = self.geometry().children().min(first + TREE_CHILDREN);
        let mut free = 0;
        for child in first..end {
            free += self.free(child);
        }
        free
    }
}

// Sets the bits of the frames of the ranges.
fn hold_ranges(words: &mut Vec<u64>, geometry: Geometry, ranges: &[(u32, u32)])
    requires uncounted { IsUncounted (key_of geometry) words.old.items }
    requires ranges { AreRanges 0 geometry.frames ranges.now }
    ensures uncounted { IsUncounted (key_of geometry) words.new.items }
    ensures set { SetsRanges (key_of geometry) ranges.now words.old.items words.new.items }
{
    for &(from, count) in ranges {
        hold(words, geometry, from, count);
    }
}

// Sets the bits of these frames.
fn hold(words: &mut Vec<u64>, geometry: Geometry, from: u32, count: u32)
    requires uncounted { IsUncounted (key_of geometry) words.old.items }
    requires inside { from + count ≤ frame_count (key_of geometry) }
    ensures uncounted { IsUncounted (key_of geometry) words.new.items }
    ensures set { SetsRun (key_of geometry) from (from + count) words.old.items words.new.items }
{
    let end = from + count;
    for word in from / WORD_FRAMES..end.div_ceil(WORD_FRAMES) {
        let first = WORD_FRAMES * word;
        let low = from.max(first) - first;
        let high = end.min(first + WORD_FRAMES) - first;
        let place = bits_place(geometry, word);
        words[place] |= ones(low, high);
    }
}

// The bits of a bit word that lie past the end.
#[tactic(auto, unfolding(crate::specs::Image::bits_past))]
fn bits_past(geometry: Geometry, word: u32) -> u64
    requires { word < 8 * geometry.children }
    ensures { result ≡ the_bits_past (key_of geometry) word }
{
    let inside = WORD_FRAMES.min(geometry.frames().saturating_sub(WORD_FRAMES * word));
    ones(inside, WORD_FRAMES)
}

// The word with ones from one bit up to another.
fn ones(from: u32, end: u32) -> u64
    requires order { from ≤ end }
    requires inside { end ≤ 64 }
    ensures { result ≡ run from (end - from) }
{
    ((1u128 << end) - (1u128 << from)) as u64
}
