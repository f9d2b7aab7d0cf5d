//! Four entries in a word: that of child `c` stands at bit `16 * (c mod 4)`.

ghost use Rattle.std.specs.Prelude.{◌≡◌, ◌≢◌, ℕ, ◌%◌, ◌^◌, ◌<◌};
ghost use Rattle.frame_words.specs.Words.{lane_count, lane_in, lane_put};

use super::sizes::{LANE_BITS, LANES};

const LANE_VALUES: u64 = 0x1_0000;

/// The entry of the child in the word that it shares.
#[inline]
#[tactic(auto, unfolding(crate::specs::Words::lane_in, crate::specs::Words::lane_shift))]
pub fn lane(word: u64, child: u32) -> u64
    ensures value { result ≡ lane_in word child }
    ensures below { result < 2 ^ 16 }
{
    (word >> (LANE_BITS * (child % LANES))) % LANE_VALUES
}

/// The word with the entry of that child replaced.
#[inline]
pub fn with_lane(word: u64, child: u32, entry: u64) -> u64
    requires { entry < 2 ^ 16 }
    ensures word { result ≡ lane_put word child entry }
    ensures here { lane_in result child ≡ entry }
    ensures others { (other : ℕ) → other % lane_count ≢ child % lane_count →
        lane_in result other ≡ lane_in word other }
{
    let shift = LANE_BITS * (child % LANES);
    word - (lane(word, child) << shift) + (entry << shift)
}
