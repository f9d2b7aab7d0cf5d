//! The words of a table by what they say.

/// One word: that of a child's entry, the frames of a bit word, a tree or a core.
#[derive(Clone, Copy, Debug, PartialEq, Eq)]
pub enum Place {
    /// The word that the entry of this child stands in, beside those of three others.
    Entry(u32),
    /// This bit word; those of the child `c` are `8 * c` to `8 * c + 7`.
    Bits(u32),
    /// The word of this tree.
    Tree(u32),
    /// The local word of this core.
    Local(u32),
}
