//! A round: the requests of each core on a thread of their own.

ghost use Rattle.std.specs.Prelude.{◌≡◌, ◌≤◌, [], vec_len, IfOk, IfErr};
ghost use Rattle.std.specs.List.{All};
ghost use Rattle.frame_words.specs.Geometry.{most_cores};
ghost use Rattle.llfree_trace.specs.Rounds.{Follows, IsPromiseOf, MayRun, MayRunAll, asks_from, Ran, RanAll};
ghost use Rattle.trace_text.specs.Trace.{cores_in};

use crate::gate::Gate;
use crate::lines::{Done, has_lines, run_lines};
use core_frames::{Allocator, Desk};
use frame_words::Fault;
use std::alloc::Global;
use std::snapshot::Snapshot;
use std::sync::Wait;
use std::thread;
use std::thread::{Promise, PromisedHandle, Scope, Threads};
use trace_text::Line;

/// What a core's thread promises: that the core's requests ran, from the desk that it was given.
#[derive(Drop)]
pub(crate) struct Running<'a> {
    allocator: &'a Allocator,
    core: u32,
    was: Snapshot<Desk>,
    first: u32,
    lines: &'a [Line],
}

impl<'a> Promise<Result<Done, Fault>> for Running<'a> {
    ghost use Rattle.std.specs.Prelude.{◌≡◌, IfOk, IfErr};
    ghost use Rattle.frame_words.specs.declared.fault.Fault.TheVariants.{NoMemory};
    ghost use Rattle.llfree_trace.specs.Rounds.{asks_from, Ran};

    ghost kept_by = { λ p r.
        IfOk r (λ d. Ran p.allocator.now p.core p.was.value (asks_from p.first p.lines.now) d)
        × IfErr r (λ e. e ≡ NoMemory) };
}

// Starts the thread of a core.
fn start<'s, E, G: Gate>(
    scope: &Scope<'s, E>,
    alloc: Global,
    allocator: &'s Allocator,
    gate: &'s G,
    core: u32,
    desk: Desk,
    first: u32,
    lines: &'s [Line],
) -> Result<PromisedHandle<Result<Done, Fault>, Running<'s>>, Fault>
    requires run { MayRun allocator.now desk first lines.now }
    ensures promise { IfOk result (λ h.
        IsPromiseOf allocator.now core desk first lines.now h.promise) }
    ensures fault { IfErr result (λ e. e ≡ Fault.NoMemory) }
{
    let promise = Running {
        allocator,
        core,
        was: Snapshot::of(&desk),
        first,
        lines,
    };
    let run = move || -> Result<Done, Fault>
        requires { MayRun allocator.now desk first lines.now }
        ensures ran { IfOk result (λ d.
            Ran allocator.entry.now core desk (asks_from first lines.entry.now) d) }
        ensures fault { IfErr result (λ e. e ≡ Fault.NoMemory) }
    { run_lines(alloc, allocator, gate, core, desk, first, lines) };
    match scope.spawn_with(promise, run) {
        Ok(child) => Ok(child),
        Err(_) => Err(Fault::NoMemory),
    }
}

// Runs the requests of each core: starts the thread of the last core that has any, does the same
// for the cores below it, and then joins that thread.
fn run_cores<'s, E, G: Gate, R: Threads>(
    scope: &Scope<'s, E>,
    rt: &R,
    alloc: Global,
    allocator: &'s Allocator,
    gate: &'s G,
    mut desks: Vec<Desk>,
    named: u32,
    first: u32,
    lines: &'s [Line],
) -> Result<Vec<Done>, Fault>
    requires few { vec_len desks ≤ most_cores }
    requires all { MayRunAll allocator.now desks.items first lines.now }
    requires inside { All (λ l. cores_in l ≤ named) lines.now }
    ensures ran { IfOk result (λ all.
        RanAll allocator.now 0 desks.items (asks_from first lines.now) all.items) }
    ensures fault { IfErr result (λ e. e ≡ Fault.NoMemory) }
{
    let Some(desk) = desks.pop() else {
        return Ok(Vec::new(alloc));
    };
    let core = desks.len() as u32;
    if !has_lines(core, named, lines) {
        let others = run_cores(
            scope, rt, alloc, allocator, gate, desks, named, first, lines,
        );
        return followed(others, Ok(idle(alloc, desk)));
    }
    let child = start(scope, alloc, allocator, gate, core, desk, first, lines)?;
    // No `?` here: the thread is joined first.
    let others = run_cores(
        scope, rt, alloc, allocator, gate, desks, named, first, lines,
    );
    followed(others, child.join(rt))
}

// What a core without requests does.
fn idle(alloc: Global, desk: Desk) -> Done
    ensures desk { result.desk ≡ desk }
    ensures answers { result.answers.items ≡ [] }
{
    let answers = Vec::new(alloc);
    Done { desk, answers }
}

// What was done on the cores below, and then what was done on this one.
fn followed(others: Result<Vec<Done>, Fault>, done: Result<Done, Fault>) -> Result<Vec<Done>, Fault>
    requires others { IfErr others (λ e. e ≡ Fault.NoMemory) }
    requires done { IfErr done (λ e. e ≡ Fault.NoMemory) }
    ensures all { IfOk result (λ all. Follows others done all.items) }
    ensures fault { IfErr result (λ e. e ≡ Fault.NoMemory) }
{
    let mut all = others?;
    all.push(done?)?;
    Ok(all)
}

/// Runs a round: the requests of each core that has any on a thread of their own. All threads are
/// started before the first is joined. Refused only for lack of memory or of a thread.
pub(crate) fn run_round<G: Gate, R: Threads + Wait>(
    rt: &R,
    alloc: Global,
    allocator: &Allocator,
    gate: &G,
    desks: Vec<Desk>,
    named: u32,
    first: u32,
    lines: &[Line],
) -> Result<Vec<Done>, Fault>
    requires few { vec_len desks ≤ most_cores }
    requires all { MayRunAll allocator.now desks.items first lines.now }
    requires inside { All (λ l. cores_in l ≤ named) lines.now }
    ensures ran { IfOk result (λ all.
        RanAll allocator.now 0 desks.items (asks_from first lines.now) all.items) }
    ensures fault { IfErr result (λ e. e ≡ Fault.NoMemory) }
{
    thread::scope(
        thread::scope_env(),
        rt,
        |scope| -> Result<Vec<Done>, Fault>
            requires few { vec_len desks ≤ most_cores }
            requires all { MayRunAll allocator.now desks.items first lines.now }
            requires inside { All (λ l. cores_in l ≤ named) lines.now }
            ensures ran { IfOk result (λ all. RanAll allocator.entry.now 0 desks.items
                (asks_from first lines.entry.now) all.items) }
            ensures fault { IfErr result (λ e. e ≡ Fault.NoMemory) }
        {
            run_cores(
                scope, rt, alloc, allocator, gate, desks, named, first, lines,
            )
        },
    )
}
