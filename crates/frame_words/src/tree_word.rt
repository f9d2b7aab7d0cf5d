//! The word of a tree: `free + 32768 * reserved`. Frames that a core holds reserved are not in it.

ghost use Rattle.std.specs.Prelude.{◌≡◌, ◌^◌, ◌<◌, ◌≤◌, ◌↔◌, IsTrue};
ghost use Rattle.frame_words.specs.Geometry.{tree_frames};
ghost use Rattle.frame_words.specs.Words.{flag, entry_word, free_in, flag_in};

use super::sizes::FLAG;

/// The word of a tree with so many free frames, reserved by a core or not.
#[tactic(auto, unfolding(crate::specs::Words::entry_word, crate::specs::Words::free_in, crate::specs::Words::flag_in))]
pub fn tree(free: u32, reserved: bool) -> u64
    requires { free ≤ tree_frames }
    ensures word { result ≡ entry_word free (flag reserved) }
    ensures free { free_in result ≡ free }
    ensures reserved { flag_in result ≡ flag reserved }
    ensures below { result < 2 ^ 16 }
{
    let free = u64::from(free);
    if reserved { free + FLAG } else { free }
}

/// The free frames that the tree word counts.
#[inline]
#[tactic(auto, unfolding(crate::specs::Words::free_in))]
pub fn tree_free(word: u64) -> u32
    ensures value { result ≡ free_in word }
    ensures below { result < 2 ^ 15 }
{
    (word % FLAG) as u32
}

/// Has a core reserved the tree?
#[inline]
#[tactic(auto, unfolding(crate::specs::Words::flag_in))]
pub fn tree_reserved(word: u64) -> bool
    ensures set { IsTrue result ↔ (0 < flag_in word) }
    ensures value { word < 2 ^ 16 → flag_in word ≡ flag result }
{
    word >= FLAG
}
