//! Labels: the names under which blocks are held.

ghost use Rattle.std.specs.Prelude.{◌≡◌, ◌≤◌, true, length};
ghost use Rattle.std.specs.List.{list_all};
ghost use Rattle.held_blocks.specs.Label.{is_label as test_of_label};
ghost use Rattle.held_blocks.specs.Label.{is_label_byte as byte_of_label};
ghost use Rattle.held_blocks.specs.Label.{label_of, packed};

use arrayvec::ArrayString;
use std::marker::Model;
use std::str;

/// The most bytes of a label.
const LONGEST: usize = 16;

/// A name for blocks: 1 to 16 ASCII letters, digits, `_` and `-`.
#[derive(Drop)]
pub struct Label {
    text: ArrayString<16>,
}

impl Model for Label {
    ghost use Rattle.std.specs.Prelude.{List, ℕ, ◌≡◌, true};
    ghost use Rattle.held_blocks.specs.Label.{is_label};

    ghost Value = { List ℕ };

    ghost view = { λ label. label.text.bytes };

    ghost invariant = { λ label. is_label label.text.bytes ≡ true };
}

impl Label {
    /// The label of these bytes; `None` where they are no label.
    #[tactic(auto, unfolding(crate::specs::Label::label_of))]
    pub fn of(bytes: &[u8]) -> Option<Label>
        ensures { result ≡ label_of bytes.now }
    {
        if !is_label(bytes) {
            return None;
        }
        let mut text = ArrayString::new();
        text.push_str(ascii_text(bytes));
        Some(Label { text })
    }

    /// The bytes of the label.
    pub fn bytes(&self) -> &[u8]
        ensures bytes { result.now ≡ self.now }
        ensures lawful { test_of_label self.now ≡ true }
    {
        self.text.as_str().as_bytes()
    }

    /// An equal label.
    pub fn again(&self) -> Label
        ensures { result ≡ self.now }
    {
        Label { text: self.text }
    }
}

// Whether these bytes are a label.
#[tactic(auto, unfolding(crate::specs::Label::is_label))]
fn is_label(bytes: &[u8]) -> bool
    ensures { result ≡ test_of_label bytes.now }
{
    !bytes.is_empty() && bytes.len() <= LONGEST && are_label_bytes(bytes)
}

// Whether a label may have each of these bytes.
fn are_label_bytes(bytes: &[u8]) -> bool
    ensures { result ≡ list_all byte_of_label bytes.now }
{
    bytes.iter().all(|byte| is_label_byte(*byte))
}

// Whether a label may have this byte.
#[tactic(auto, unfolding(crate::specs::Label::is_label_byte))]
fn is_label_byte(byte: u8) -> bool
    ensures { result ≡ byte_of_label byte }
{
    byte.is_ascii_alphanumeric() || byte == b'_' || byte == b'-'
}

// The bytes of a label, as text.
fn ascii_text(bytes: &[u8]) -> &str
    requires { test_of_label bytes.now ≡ true }
    ensures same { result.now ≡ bytes.now }
    ensures short { length bytes.now ≤ 16 }
{
    match str::from_utf8(bytes) {
        Ok(text) => text,
        Err(_) => unreachable!(),
    }
}

/// The number that stands for a label: equal labels have one number, different ones have two.
pub(crate) fn key_of(label: &Label) -> u128
    ensures key { result ≡ packed label.now }
    ensures lawful { test_of_label label.now ≡ true }
{
    packed_bytes(label.bytes())
}

// The number whose digits to the base 256 are these bytes, the lowest first.
fn packed_bytes(bytes: &[u8]) -> u128
    requires { test_of_label bytes.now ≡ true }
    ensures { result ≡ packed bytes.now }
{
    let mut key: u128 = 0;
    let mut left = bytes.len();
    while left > 0 {
        left -= 1;
        key = key * 256 + u128::from(bytes[left]);
    }
    key
}
