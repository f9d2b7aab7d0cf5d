//! What holds of every image: a law, proved as a contract of a function that does nothing.

ghost use Rattle.std.specs.Prelude.{◌≡◌, ℕ, ◌+◌, ◌*◌, ◌<◌, ◌≤◌, List, Option, Bool, true};
ghost use Rattle.std.specs.Option.{ForSome};
ghost use Rattle.frame_words.specs.Words.{flag, entry_word, local_word};
ghost use Rattle.frame_core.specs.Image.{Contents, key_in, FitsTree, IsImage, with_child};
ghost use Rattle.frame_model.specs.Key.{size_of, tree_count};
ghost use Rattle.frame_model.specs.Words.{with_entry, with_bits, with_tree, with_local};
ghost use Rattle.plain_moves.specs.Readers.{
  AreBits,
  ReadsChild,
  ReadsCore,
  ReadsEntry,
  ReadsTree,
  ReadsWord,
};

/// What is written into an image is what its readers then say, and all else that they say is as it
/// was: the other children, the trees, the cores.
pub fn every_write_is_read_back()
    ensures entry { (image : Contents) (child free : ℕ) (huge : Bool)
        → IsImage (key_in image) image.words → child < (key_in image).children → free ≤ 512
        → ReadsEntry (key_in image) child free huge image.words
        (with_entry image.words child (entry_word free (flag huge))) }
    ensures word { (image : Contents) (word bits : ℕ) → IsImage (key_in image) image.words
        → word < 8 * (key_in image).children
        → ReadsWord (key_in image) word bits image.words
        (with_bits (key_in image) image.words word bits) }
    ensures child { (image : Contents) (child free : ℕ) (huge : Bool) (bits : List ℕ)
        → IsImage (key_in image) image.words → child < (key_in image).children → free ≤ 512
        → (huge ≡ true → 512 * (child + 1) ≤ image.geometry.frames)
        → AreBits (key_in image) child bits
        → ReadsChild (key_in image) child free huge bits image.words
        (with_child (key_in image) image.words child (entry_word free (flag huge)) bits) }
    ensures tree { (image : Contents) (tree free : ℕ) (reserved : Bool)
        → IsImage (key_in image) image.words → tree < tree_count (key_in image)
        → free ≤ size_of (key_in image) tree
        → ReadsTree (key_in image) tree free reserved image.words
        (with_tree (key_in image) image.words tree (entry_word free (flag reserved))) }
    ensures core { (image : Contents) (core : ℕ) (rest : Option (ℕ × ℕ))
        → IsImage (key_in image) image.words → core < (key_in image).cores
        → ForSome rest (FitsTree (key_in image))
        → ReadsCore (key_in image) core rest image.words
        (with_local (key_in image) image.words core (local_word rest)) }
{}
