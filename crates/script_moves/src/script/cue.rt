//! What a script says: what happens just before which move of the caller.

use plain_moves::Act;

/// Something that happens just before a move of the caller.
#[derive(Clone, Copy, Debug, PartialEq, Eq)]
pub struct Cue {
    /// The number of that move, from 0 on.
    pub at: u32,
    pub what: What,
}

/// What happens.
#[derive(Clone, Copy, Debug, PartialEq, Eq)]
pub enum What {
    /// The move is an exchange that is lost, and changes nothing.
    Lose,
    /// A stranger, 0 to 7, makes a move of its own.
    Stranger { who: u32, act: Act },
    /// The words are copied; the call goes on.
    Stop,
}
