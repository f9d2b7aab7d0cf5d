//! What the records of a trace are answered.

use frame_words::Fault;

/// What a core is answered. A block is its first frame and its order.
#[derive(Clone, Copy, Debug, PartialEq, Eq)]
pub enum Reply {
    Taken(u32, u8),
    Given(u32, u8),
    Moved(u32, u8),
    /// `BadOrder`, `NoBlock`, `Contended` or `NotHeld`.
    Refused(Fault),
}

/// The answer to a record of a trace.
#[derive(Clone, Copy, Debug, PartialEq, Eq)]
pub struct Answer {
    /// The number of the record, counted from 1.
    pub line: u32,
    pub core: u32,
    pub reply: Reply,
}
