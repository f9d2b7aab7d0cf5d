//! Why a give or a split by numbers is refused.

use thiserror::Error;

/// Why a give or a split was refused.
#[derive(Clone, Copy, Debug, PartialEq, Eq, Error)]
pub enum Refusal {
    /// No block of these numbers is held; nothing changed.
    #[error("not held")]
    NotHeld,
    /// A block of order 0 has no halves, no block has parts of an order above its own, and there are no runs of so
    /// many huge frames; nothing changed.
    #[error("no parts")]
    NoParts,
    /// A half or a part found no slot and is free again.
    #[error("no slot")]
    NoSlot,
}
