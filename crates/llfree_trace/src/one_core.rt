//! A run of a trace on one core, on the calling thread.

ghost use Rattle.std.specs.Prelude.{◌≡◌, ◌≤◌, length, IfErr, IfOk};
ghost use Rattle.core_frames.specs.Ranges.{IsUnopenedFor, MayHoldBack};
ghost use Rattle.frame_model.specs.Laws.{AddsUp};
ghost use Rattle.held_blocks.specs.Desk.{MayRefuse};
ghost use Rattle.llfree_trace.specs.Desk.{IsLawful, IsSameMemory, RunsFirst};
ghost use Rattle.llfree_trace.specs.Outcome.{IsAnsweredBy, MustRefuseHere, key_under};
ghost use Rattle.trace_text.specs.Trace.{core_count, most_records, ranges_in};

use crate::desk::PlainDesk;
use crate::outcome::Outcome;
use frame_words::{Fault, Geometry};
use std::alloc::Global;
use trace_text::{Answer, Line, Trace};

/// Runs a trace that names no core but 0.
///
/// It waits for nobody. A take is refused only where no block of its order is free. `BadRange`
/// where the ranges of its records may not be held back, before anything is run.
pub fn run_one(alloc: Global, geometry: Geometry, trace: &Trace) -> Result<Outcome, Fault>
    requires core { core_count trace.now ≤ 1 }
    ensures fits { IfOk result (λ o. IsAnsweredBy MayRefuse trace.now o.answers.items o.image) }
    ensures exact { IfOk result (λ o.
        IsAnsweredBy MustRefuseHere trace.now o.answers.items o.image) }
    ensures counters { IfOk result (λ o. AddsUp (key_under trace.now o.image) o.image.words) }
    ensures geometry { IfOk result (λ o. o.image.geometry ≡ geometry) }
    ensures lawful { IfOk result (λ o. MayHoldBack geometry (ranges_in trace.now)) }
    ensures refused { IfErr result (IsUnopenedFor geometry (ranges_in trace.now)) }
{
    let mut desk = PlainDesk::open(alloc, geometry, trace.ranges())?;
    let answers = run_records(alloc, &mut desk, trace.lines())?;
    let image = desk.close(alloc)?;
    Ok(Outcome { answers, image })
}

// Runs all records.
fn run_records(alloc: Global, desk: &mut PlainDesk, lines: &[Line]) -> Result<Vec<Answer>, Fault>
    requires few { length lines.now ≤ most_records }
    requires core { core_count lines.now ≤ 1 }
    requires lawful { IsLawful desk.old }
    ensures run { IfOk result (λ all. RunsFirst desk.old 1 lines.now all.items desk.new) }
    ensures lawful { IfOk result (λ all. IsLawful desk.new) }
    ensures memory { IsSameMemory desk.old desk.new }
    ensures fault { IfErr result (λ e. e ≡ Fault.NoMemory) }
{
    let mut answers = Vec::new(alloc);
    let mut number: u32 = 0;
    for line in lines {
        number += 1;
        if let Some(answer) = desk.run(number, line)? {
            answers.push(answer)?;
        }
    }
    Ok(answers)
}
