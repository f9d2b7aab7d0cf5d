//! The mask of an aligned run of bits in a word.

ghost use Rattle.std.specs.Prelude.{◌≡◌, ℕ, ◌+◌, ◌-◌, ◌%◌, ◌^◌, ◌<◌, ◌≤◌, ◌↔◌};
ghost use Rattle.std.specs.Int.{bit_at};
ghost use Rattle.frame_words.specs.Runs.{word_bits, word_order};

/// The `2^order` bits from `bit` on.
#[inline]
pub fn mask(order: u8, bit: u32) -> u64
    requires order { order ≤ word_order }
    requires aligned { bit % 2 ^ order ≡ 0 }
    requires inside { bit < word_bits }
    ensures value { result ≡ 2 ^ (bit + 2 ^ order) - 2 ^ bit }
    ensures bits { (i : ℕ) → (bit_at result i ≡ 1) ↔ ((bit ≤ i) × (i < bit + 2 ^ order)) }
{
    let length = 1u32 << order;
    (u64::MAX >> (u64::BITS - length)) << bit
}
