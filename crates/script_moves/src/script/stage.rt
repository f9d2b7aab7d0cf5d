//! What a script is played on: the caller's moves, the cues, and what came of them so far.

ghost use Rattle.std.specs.Prelude.{◌≡◌, length, vec_len};
ghost use Rattle.plain_moves.specs.PlainState.{words_by, parties_by};

use super::cue::Cue;
use frame_core::Image;
use plain_moves::PlainMoves;

/// The caller's moves, the script, and what came of it.
#[derive(Drop)]
pub(crate) struct Stage {
    pub(crate) plain: PlainMoves,
    pub(crate) cues: Vec<Cue>,
    // What the caller last found each word to be.
    pub(crate) read: Vec<u64>,
    // How many moves the caller had made when the script began.
    pub(crate) begun: u64,
    pub(crate) missed: bool,
    pub(crate) skipped: u32,
    // The words just before the latest stop, once there was one.
    pub(crate) stop: Image,
    pub(crate) has_stopped: bool,
    pub ghost reads: { vec_len read ≡ length (words_by plain) },
    pub ghost stop_length: { length stop.words ≡ length (words_by plain) },
    pub ghost strangers: { length (parties_by plain) ≡ 8 },
}
