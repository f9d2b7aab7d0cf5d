//! Where each word of a table stands in its list. Word 0 is the anchor, which nothing writes.

ghost use Rattle.std.specs.Prelude.{◌≡◌, ◌+◌, ◌*◌, ◌<◌};
ghost use Rattle.frame_model.specs.declared.key.Key.{Key};
ghost use Rattle.frame_model.specs.Key.{key_of, tree_count};
ghost use Rattle.frame_model.specs.Words.{first_tree, first_local, entry_place, tree_place};
ghost use Rattle.frame_model.specs.Words.{local_place, bits_place, word_count};

use frame_words::{CHILD_WORDS, Geometry, LANES, TREE_CHILDREN};

/// Words before the first entry, and from the entries of one tree, and from one local word, to the
/// next: a cache line each.
pub const LINE_WORDS: usize = 8;

/// The place of the word that the entry of this child stands in, beside three others. The entries of
/// a tree stand in two words, eight words behind those of the tree before it: where the first word
/// begins at a multiple of 16 bytes, no cache line has entries of two trees. The six between are not
/// used.
#[inline]
#[tactic(auto, unfolding(frame_model::specs::Words::entry_place, frame_model::specs::Words::word_count))]
pub fn entry_place(child: u32) -> usize
    ensures value { result ≡ entry_place child }
    ensures inside { (key : Key) → child < key.children → result < word_count key }
{
    LINE_WORDS * (1 + child / TREE_CHILDREN) as usize + (child % TREE_CHILDREN / LANES) as usize
}

/// The place of the word of this tree.
#[inline]
#[tactic(auto, unfolding(frame_model::specs::Words::tree_place, frame_model::specs::Words::word_count))]
pub fn tree_place(geometry: Geometry, tree: u32) -> usize
    ensures value { result ≡ tree_place (key_of geometry) tree }
    ensures inside { tree < tree_count (key_of geometry) → result < word_count (key_of geometry) }
{
    first_tree(geometry) + tree as usize
}

/// The place of the local word of this core. The seven words behind it are not used.
#[inline]
#[tactic(auto, unfolding(frame_model::specs::Words::local_place, frame_model::specs::Words::word_count))]
pub fn local_place(geometry: Geometry, core: u32) -> usize
    ensures value { result ≡ local_place (key_of geometry) core }
    ensures inside { core < geometry.cores → result < word_count (key_of geometry) }
{
    first_local(geometry) + LINE_WORDS * core as usize
}

/// The place of a bit word; those of the child `c` are `8 * c` to `8 * c + 7`.
#[inline]
#[tactic(auto, unfolding(frame_model::specs::Words::bits_place, frame_model::specs::Words::word_count))]
pub fn bits_place(geometry: Geometry, word: u32) -> usize
    ensures value { result ≡ bits_place (key_of geometry) word }
    ensures inside { word < 8 * geometry.children → result < word_count (key_of geometry) }
{
    first_local(geometry) + LINE_WORDS * geometry.cores as usize + word as usize
}

/// How many words a table has.
#[inline]
#[tactic(auto, unfolding(frame_model::specs::Words::word_count))]
pub fn word_count(geometry: Geometry) -> usize
    ensures { result ≡ word_count (key_of geometry) }
{
    first_local(geometry)
        + LINE_WORDS * geometry.cores as usize
        + CHILD_WORDS as usize * geometry.children as usize
}

#[inline]
fn first_tree(geometry: Geometry) -> usize
    ensures { result ≡ first_tree (key_of geometry) }
{
    LINE_WORDS * (1 + geometry.trees()) as usize
}

// Seven words behind the trees are not used, so that the first local word has its line alone.
#[inline]
fn first_local(geometry: Geometry) -> usize
    ensures { result ≡ first_local (key_of geometry) }
{
    first_tree(geometry) + geometry.trees() as usize + LINE_WORDS - 1
}
