//! Runs from a reader to a writer.

ghost use Rattle.std.specs.Prelude.{◌≡◌, ◌≤◌, IfErr, IfOk};
ghost use Rattle.frame_words.specs.Geometry.{most_text_cores};
ghost use Rattle.frame_core.specs.Image.{key_in};
ghost use Rattle.frame_model.specs.Report.{free_frames as frames_free, held_frames as frames_held};
ghost use Rattle.llfree_trace.specs.Outcome.{MustRefuseHere};
ghost use Rattle.llfree_trace.specs.RunText.{ExplainsRun, IsRunOf, outcome_answers, shown_of};
ghost use Rattle.llfree_trace.specs.Streams.{Filters};

use crate::one_core::run_one;
use crate::outcome::Outcome;
use frame_core::Image;
use frame_image::held_frames;
use frame_text::{Watched, image_text, read_all, write_out};
use frame_words::{CHILD_FRAMES, Fault, Geometry};
use std::alloc::Global;
use std::io::{Read, Write};
use trace_text::{answers_text, parse_trace};

/// What a run shows.
#[derive(Clone, Copy, Debug, PartialEq, Eq)]
pub enum Show {
    /// The answers, and how many frames are held and free at the end.
    Answers,
    /// The image at the end.
    Picture,
}

/// Runs the trace that the reader has left on one core, and writes what is to be shown.
///
/// All text is made before the first byte is written.
pub fn run_over<R: Read, W: Write>(
    alloc: Global,
    geometry: Geometry,
    show: Show,
    input: &mut Watched<R>,
    output: &mut Watched<W>,
) -> Result<(), Fault>
    requires { geometry.cores ≡ 1 }
    ensures { Filters R.remaining W.contents (IsRunOf MustRefuseHere geometry show) (ExplainsRun geometry)
        input.old input.new output.old output.new result }
{
    let text = read_all(alloc, input)?;
    let shown = run_text(alloc, geometry, show, text.as_slice())?;
    write_out(output, shown.as_slice())
}

// What a run of the trace that the text spells shows.
fn run_text(alloc: Global, geometry: Geometry, show: Show, text: &[u8]) -> Result<Vec<u8>, Fault>
    requires { geometry.cores ≡ 1 }
    ensures ok { IfOk result (λ out. IsRunOf MustRefuseHere geometry show text.now out.items) }
    ensures err { IfErr result (ExplainsRun geometry text.now) }
{
    let trace = parse_trace(alloc, &geometry, text)?;
    let outcome = run_one(alloc, geometry, &trace)?;
    shown_text(alloc, show, &outcome)
}

// What is shown of an outcome.
fn shown_text(alloc: Global, show: Show, outcome: &Outcome) -> Result<Vec<u8>, Fault>
    requires { outcome.now.image.geometry.cores ≤ most_text_cores }
    ensures text { IfOk result (λ text. text.items ≡ shown_of show outcome.now.answers.items
        outcome.now.image) }
    ensures fault { IfErr result (λ e. e ≡ Fault.NoMemory) }
{
    match show {
        Show::Answers => outcome_text(alloc, outcome),
        Show::Picture => image_text(alloc, &outcome.image),
    }
}

// The answers of an outcome, and how many frames are held and free at its end.
fn outcome_text(alloc: Global, outcome: &Outcome) -> Result<Vec<u8>, Fault>
    ensures text { IfOk result (λ text. text.items ≡ outcome_answers outcome.now.answers.items
        outcome.now.image) }
    ensures fault { IfErr result (λ e. e ≡ Fault.NoMemory) }
{
    let (held, free) = frames_in(&outcome.image);
    answers_text(alloc, outcome.answers.as_slice(), held, free)
}

/// How many frames of an image are held and free.
pub(crate) fn frames_in(image: &Image) -> (u32, u32)
    ensures held { result.0 ≡ frames_held (key_in image.now) image.now.words }
    ensures free { result.1 ≡ frames_free (key_in image.now) image.now.words }
{
    let held = held_frames(image);
    let free = CHILD_FRAMES * image.geometry().children() - held;
    (held, free)
}
