//! Bit words as hexadecimal digits.

ghost use Rattle.std.specs.Prelude.{◌≡◌, ◌<◌};
ghost use Rattle.frame_core.specs.Image.{key_in};
ghost use Rattle.frame_text.specs.BitWords.{hex_text, words_in as the_words_in};
ghost use Rattle.frame_text.specs.ImageText.{child_bits as the_child_bits};

use byteorder::{BigEndian, ByteOrder};
use frame_core::Image;
use hex::FromHex;

/// The eight words that 128 digits spell.
#[tactic(auto, unfolding(crate::specs::BitWords::words_in))]
pub(crate) fn words_in(field: &[u8]) -> Option<[u64; 8]>
    ensures { result ≡ the_words_in field.now }
{
    let bytes = <[u8; 64] as FromHex>::from_hex(field).ok()?;
    let mut words = [0; 8];
    BigEndian::read_u64_into(&bytes, &mut words);
    Some(words)
}

/// The digits of eight words, in lower case.
#[tactic(auto, unfolding(crate::specs::BitWords::hex_text))]
pub(crate) fn digits_of(words: &[u64; 8]) -> [u8; 128]
    ensures { result ≡ hex_text words.now }
{
    let mut bytes = [0; 64];
    BigEndian::write_u64_into(words, &mut bytes);
    let mut digits = [0; 128];
    match hex::encode_to_slice(bytes, &mut digits) {
        Ok(()) => digits,
        Err(_) => unreachable!(),
    }
}

/// The bit words of a child.
pub fn child_bits(image: &Image, child: u32) -> [u64; 8]
    requires { child < image.now.geometry.children }
    ensures { result ≡ the_child_bits (key_in image.now) image.now.words child }
{
    let mut bits = [0; 8];
    for word in 0..8u32 {
        bits[word as usize] = image.word(child, word);
    }
    bits
}
