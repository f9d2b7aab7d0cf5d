//! What a run of a trace leaves.

use frame_core::Image;
use trace_text::Answer;

/// The answers to a trace, and the memory that its run leaves.
#[derive(Drop)]
pub struct Outcome {
    /// One for each record that is answered, by rising number.
    pub answers: Vec<Answer>,
    pub image: Image,
}
