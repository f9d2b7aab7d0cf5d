//! A block under its label.

use crate::label::Label;
use frame_core::PlainBlock;

/// A block that is held under a label.
#[derive(Drop)]
pub struct LabelledBlock {
    pub label: Label,
    pub block: PlainBlock,
}
