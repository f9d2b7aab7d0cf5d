//! The entry of a child: `free + 32768 * huge`, in 16 bits.

ghost use Rattle.std.specs.Prelude.{◌≡◌, ◌^◌, ◌<◌, ◌≤◌, ◌↔◌, IsTrue};
ghost use Rattle.frame_words.specs.Geometry.{child_frames};
ghost use Rattle.frame_words.specs.Words.{flag, entry_word, free_in, flag_in};

use super::sizes::FLAG;

/// The entry of a child with so many free frames, taken whole as a huge frame or not.
#[tactic(auto, unfolding(crate::specs::Words::entry_word, crate::specs::Words::free_in, crate::specs::Words::flag_in))]
pub fn entry(free: u32, huge: bool) -> u64
    requires { free ≤ child_frames }
    ensures word { result ≡ entry_word free (flag huge) }
    ensures free { free_in result ≡ free }
    ensures huge { flag_in result ≡ flag huge }
    ensures lane { result < 2 ^ 16 }
{
    let free = u64::from(free);
    if huge { free + FLAG } else { free }
}

/// The free frames that the entry counts.
#[inline]
#[tactic(auto, unfolding(crate::specs::Words::free_in))]
pub fn entry_free(entry: u64) -> u32
    ensures value { result ≡ free_in entry }
    ensures below { result < 2 ^ 15 }
{
    (entry % FLAG) as u32
}

/// Is the child taken whole, as a huge frame?
#[inline]
#[tactic(auto, unfolding(crate::specs::Words::flag_in))]
pub fn entry_huge(entry: u64) -> bool
    ensures set { IsTrue result ↔ (0 < flag_in entry) }
    ensures value { entry < 2 ^ 16 → flag_in entry ≡ flag result }
{
    entry >= FLAG
}
