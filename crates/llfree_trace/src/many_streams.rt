//! Runs on several cores from a reader to a writer.

ghost use Rattle.std.specs.Prelude.{◌≡◌, ◌≤◌, IfErr, IfOk};
ghost use Rattle.frame_words.specs.Geometry.{most_text_cores};
ghost use Rattle.held_blocks.specs.Desk.{MayRefuse};
ghost use Rattle.llfree_trace.specs.RunText.{ExplainsRun, IsRunOf, shown_of};
ghost use Rattle.llfree_trace.specs.Streams.{Filters};

use crate::gate::Gate;
use crate::many_cores::run_trace;
use crate::outcome::Outcome;
use crate::streams::{Show, frames_in};
use frame_text::{Watched, image_text, read_all, write_out};
use frame_words::{Fault, Geometry, MOST_TEXT_CORES};
use std::alloc::Global;
use std::io::{Read, Write};
use std::sync::Wait;
use std::thread::Threads;
use trace_text::{answers_apart, parse_parts};

/// Runs the trace that the reader has left, each core on a thread of its own in each round, and
/// writes what is to be shown.
///
/// A text of 64 KiB or more is read, and 4,096 answers or more are spelled, on as many threads at once as
/// there are cores. All text is made before the first byte is written. `BadGeometry` where there are more
/// than 64 cores.
pub fn run_many_over<Rt: Threads + Wait, G: Gate, R: Read, W: Write>(
    rt: &Rt,
    alloc: Global,
    geometry: Geometry,
    show: Show,
    gate: &G,
    input: &mut Watched<R>,
    output: &mut Watched<W>,
) -> Result<(), Fault>
    ensures { Filters R.remaining W.contents (IsRunOf MayRefuse geometry show) (ExplainsRun geometry)
        input.old input.new output.old output.new result }
{
    let text = read_all(alloc, input)?;
    let shown = run_many_text(rt, alloc, geometry, show, gate, text.as_slice())?;
    write_out(output, shown.as_slice())
}

// What a run of the trace that the text spells shows.
fn run_many_text<Rt: Threads + Wait, G: Gate>(
    rt: &Rt,
    alloc: Global,
    geometry: Geometry,
    show: Show,
    gate: &G,
    text: &[u8],
) -> Result<Vec<u8>, Fault>
    ensures ok { IfOk result (λ out. IsRunOf MayRefuse geometry show text.now out.items) }
    ensures err { IfErr result (ExplainsRun geometry text.now) }
{
    if geometry.cores() > MOST_TEXT_CORES {
        return Err(Fault::BadGeometry);
    }
    let trace = parse_parts(rt, alloc, &geometry, text)?;
    let outcome = run_trace(rt, alloc, geometry, &trace, gate)?;
    shown_apart(rt, alloc, show, &outcome)
}

// What is shown of an outcome. The text of many answers is made on as many threads as there are cores.
fn shown_apart<Rt: Threads + Wait>(
    rt: &Rt,
    alloc: Global,
    show: Show,
    outcome: &Outcome,
) -> Result<Vec<u8>, Fault>
    requires { outcome.now.image.geometry.cores ≤ most_text_cores }
    ensures text { IfOk result (λ text. text.items ≡ shown_of show outcome.now.answers.items
        outcome.now.image) }
    ensures fault { IfErr result (λ e. e ≡ Fault.NoMemory) }
{
    match show {
        Show::Answers => {
            let (held, free) = frames_in(&outcome.image);
            let threads = outcome.image.geometry().cores() as usize;
            answers_apart(rt, alloc, outcome.answers.as_slice(), held, free, threads)
        }
        Show::Picture => image_text(alloc, &outcome.image),
    }
}
