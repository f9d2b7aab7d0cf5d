//! What a script says of a move.

use plain_moves::Act;
use script_moves::{Cue, What};

pub(super) fn lose(at: u32) -> Cue {
    Cue {
        at,
        what: What::Lose,
    }
}

pub(super) fn stop(at: u32) -> Cue {
    Cue {
        at,
        what: What::Stop,
    }
}

pub(super) fn stranger(at: u32, who: u32, act: Act) -> Cue {
    Cue {
        at,
        what: What::Stranger { who, act },
    }
}
