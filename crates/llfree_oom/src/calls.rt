//! What came of the calls.

use frame_words::Fault;
use std::alloc::Global;

/// The answer of a call, which is made once more where memory is refused.
macro_rules! twice {
    ($calls:expr, $call:expr) => {
        match $call {
            Err(Fault::NoMemory) => {
                $calls.refuse();
                $call
            }
            answer => answer,
        }
    };
}

pub(crate) use twice;

/// How many calls were answered as they have to be, and how often memory was refused.
#[derive(Clone, Copy)]
pub struct Calls {
    pub answered: u32,
    pub refused: u32,
}

impl Calls {
    pub fn new() -> Calls {
        Calls {
            answered: 0,
            refused: 0,
        }
    }

    /// Memory was refused.
    pub fn refuse(&mut self) {
        self.refused = self.refused.saturating_add(1);
    }

    /// A call was answered; so it has to be, or not.
    pub fn look(&mut self, is_right: bool) {
        if is_right {
            self.answered = self.answered.saturating_add(1);
        }
    }

    /// An empty list with room for so many.
    pub fn room<T>(&mut self, alloc: Global, count: usize) -> Result<Vec<T>, Fault> {
        match Vec::with_capacity(alloc, count) {
            Ok(list) => Ok(list),
            Err(_) => {
                self.refuse();
                Ok(Vec::with_capacity(alloc, count)?)
            }
        }
    }
}
