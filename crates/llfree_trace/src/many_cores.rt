//! A run of a trace on several cores, each on a thread of its own.

ghost use Rattle.std.specs.Prelude.{◌≡◌, ◌≤◌, IfErr, IfOk};
ghost use Rattle.core_frames.specs.Ranges.{IsUnopenedFor, MayHoldBack};
ghost use Rattle.frame_model.specs.Laws.{AddsUp};
ghost use Rattle.held_blocks.specs.Desk.{MayRefuse};
ghost use Rattle.llfree_trace.specs.Outcome.{IsAnsweredBy, key_under};
ghost use Rattle.trace_text.specs.Trace.{core_count, ranges_in};

use crate::gate::Gate;
use crate::outcome::Outcome;
use crate::progress::{Progress, run_rounds};
use crate::run_desks::{close_desks, open_desks};
use core_frames::Allocator;
use frame_words::{Fault, Geometry};
use std::alloc::Global;
use std::sync::Wait;
use std::thread::Threads;
use trace_text::Trace;

/// Runs a trace. In each round, every core that has requests answers them on a thread of its own;
/// all threads are started before the first is joined. Moves and ends of rounds stand between.
///
/// Answers may differ from run to run; each fits the trace. `BadRange` where the ranges of its
/// records may not be held back, before anything is run; else refused only for lack of memory or of
/// a thread.
pub fn run_trace<G: Gate, R: Threads + Wait>(
    rt: &R,
    alloc: Global,
    geometry: Geometry,
    trace: &Trace,
    gate: &G,
) -> Result<Outcome, Fault>
    requires { core_count trace.now ≤ geometry.cores }
    ensures fits { IfOk result (λ o. IsAnsweredBy MayRefuse trace.now o.answers.items o.image) }
    ensures counters { IfOk result (λ o. AddsUp (key_under trace.now o.image) o.image.words) }
    ensures geometry { IfOk result (λ o. o.image.geometry ≡ geometry) }
    ensures lawful { IfOk result (λ o. MayHoldBack geometry (ranges_in trace.now)) }
    ensures refused { IfErr result (IsUnopenedFor geometry (ranges_in trace.now)) }
{
    let (allocator, cores) = Allocator::open_with(alloc, geometry, trace.ranges())?;
    let desks = open_desks(alloc, &allocator, cores)?;
    let answers = Vec::new(alloc);
    let start = Progress { desks, answers };
    let named = trace.cores();
    let end = run_rounds(rt, alloc, &allocator, gate, start, named, trace.lines())?;
    let Progress { desks, answers } = end;
    let image = close_desks(alloc, allocator, desks)?;
    Ok(Outcome { answers, image })
}
