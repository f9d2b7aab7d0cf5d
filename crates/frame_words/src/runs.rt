//! The lowest aligned run of clear bits in a word, and of clear words in a child.

ghost use Rattle.std.specs.Prelude.{◌≡◌, ℕ, ◌+◌, ◌%◌, ◌^◌, ◌<◌, ◌≤◌, ◌↔◌, ◌⊎◌, IfSome, IfNone};
ghost use Rattle.std.specs.Int.{bit_at};
ghost use Rattle.frame_words.specs.Runs.{pair_order, four_order, word_bits, word_order, IsClearFrom, IsLowestClearRun, HasNoClearRun, IsLowestClearGroup, HasNoClearGroup};

/// For each order, the bits where a run may begin.
static STARTS: [u64; 7] = [
    0xffff_ffff_ffff_ffff,
    0x5555_5555_5555_5555,
    0x1111_1111_1111_1111,
    0x0101_0101_0101_0101,
    0x0001_0001_0001_0001,
    0x0000_0001_0000_0001,
    0x0000_0000_0000_0001,
];

/// The first bit of the lowest aligned run of `2^order` clear bits.
#[inline]
pub fn find_run(word: u64, order: u8) -> Option<u32>
    requires { order ≤ word_order }
    ensures found { IfSome result (IsLowestClearRun word order) }
    ensures none { IfNone result (HasNoClearRun word order) }
{
    let starts = clear_from(word, order) & starts_of(order);
    if starts == 0 {
        return None;
    }
    Some(starts.trailing_zeros())
}

/// The bits from which on `2^order` bits of the word are clear, aligned or not.
#[inline]
fn clear_from(word: u64, order: u8) -> u64
    requires { order ≤ word_order }
    ensures { (i : ℕ) → (bit_at result i ≡ 1) ↔ IsClearFrom word (2 ^ order) i }
{
    let mut starts = !word;
    for step in 0..order {
        starts &= starts >> (1u32 << step);
    }
    starts
}

/// The bits at multiples of `2^order`.
#[inline]
fn starts_of(order: u8) -> u64
    requires { order ≤ word_order }
    ensures { (i : ℕ) → i < word_bits → (bit_at result i ≡ 1) ↔ (i % 2 ^ order ≡ 0) }
{
    STARTS[order as usize]
}

/// The first word of the lowest aligned group of 2 clear words (order 7) or 4 (order 8).
#[inline]
pub fn find_words(words: &[u64; 8], order: u8) -> Option<usize>
    requires { (order ≡ pair_order) ⊎ (order ≡ four_order) }
    ensures found { IfSome result (IsLowestClearGroup words.now order) }
    ensures none { IfNone result (HasNoClearGroup words.now order) }
{
    if order == 7 {
        find_pair(words)
    } else {
        find_four(words)
    }
}

#[inline]
fn find_pair(words: &[u64; 8]) -> Option<usize>
    ensures found { IfSome result (IsLowestClearGroup words.now pair_order) }
    ensures none { IfNone result (HasNoClearGroup words.now pair_order) }
{
    for pair in 0..4usize {
        if words[2 * pair] | words[2 * pair + 1] == 0 {
            return Some(2 * pair);
        }
    }
    None
}

#[inline]
fn find_four(words: &[u64; 8]) -> Option<usize>
    ensures found { IfSome result (IsLowestClearGroup words.now four_order) }
    ensures none { IfNone result (HasNoClearGroup words.now four_order) }
{
    for four in 0..2usize {
        let low = words[4 * four] | words[4 * four + 1];
        if low | words[4 * four + 2] | words[4 * four + 3] == 0 {
            return Some(4 * four);
        }
    }
    None
}
