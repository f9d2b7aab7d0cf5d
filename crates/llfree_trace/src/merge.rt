//! The answers of a round, in the order of its records.

ghost use Rattle.std.specs.Prelude.{◌≡◌, ◌+◌, ◌≤◌, ◌<◌, length, map, vec_len, IfOk, IfErr};
ghost use Rattle.std.specs.Prelude.{slice_index, slice_index_or, slice_set};
ghost use Rattle.std.specs.List.{All};
ghost use Rattle.frame_words.specs.Geometry.{most_cores};
ghost use Rattle.llfree_trace.specs.Rounds.{IsAsk, MayRunAll, ask_core, asks_from, Fitting, Merged, RoundRan};
ghost use Rattle.trace_text.specs.Trace.{cores_in};

use crate::gate::Gate;
use crate::lines::Done;
use crate::rounds::run_round;
use core_frames::{Allocator, Desk};
use frame_words::Fault;
use std::alloc::Global;
use std::sync::Wait;
use std::thread::Threads;
use trace_text::{Answer, Line};

// Puts the answers of all cores into the order of the records.
fn merge(alloc: Global, first: u32, lines: &[Line], done: &[Done]) -> Result<Vec<Answer>, Fault>
    requires asks { All IsAsk lines.now }
    requires fit { Fitting (asks_from first lines.now) done.now }
    ensures merged { IfOk result (λ all. Merged (asks_from first lines.now) done.now all.items) }
    ensures fault { IfErr result (λ e. e ≡ Fault.NoMemory) }
{
    let mut used = vec![in alloc; 0usize; done.len()]?;
    let mut all = Vec::with_capacity(alloc, lines.len())?;
    for line in lines {
        let core = core_of(line) as usize;
        let own = &done[core];
        let answer = next_answer(&mut used, core, own.answers.as_slice());
        all.push(answer)?;
    }
    Ok(all)
}

// The next of a core's own answers, of which so many are used.
fn next_answer(used: &mut Vec<usize>, core: usize, own: &[Answer]) -> Answer
    requires core { core < vec_len used.old }
    requires left { slice_index used.old.items core < length own.now }
    ensures answer { result ≡ slice_index_or own.now (slice_index used.old.items core) result }
    ensures used { used.new.items
        ≡ slice_set used.old.items core (slice_index used.old.items core + 1) }
{
    let place = used[core];
    used[core] = place + 1;
    own[place]
}

// The core of a request.
fn core_of(line: &Line) -> u32
    requires { IsAsk line.now }
    ensures { result ≡ ask_core line.now }
{
    match line {
        Line::Ask { core, .. } => *core,
        _ => unreachable!(),
    }
}

// The desks.
fn desks_of(alloc: Global, done: Vec<Done>) -> Result<Vec<Desk>, Fault>
    ensures desks { IfOk result (λ v. v.items ≡ map (λ d. d.desk) done.items) }
    ensures fault { IfErr result (λ e. e ≡ Fault.NoMemory) }
{
    let desks = done.into_iter().map(|one| one.desk).collect(alloc)?;
    Ok(desks)
}

/// Runs a round, and puts its answers into the order of its records.
pub(crate) fn answer_round<G: Gate, R: Threads + Wait>(
    rt: &R,
    alloc: Global,
    allocator: &Allocator,
    gate: &G,
    desks: Vec<Desk>,
    named: u32,
    first: u32,
    lines: &[Line],
) -> Result<(Vec<Desk>, Vec<Answer>), Fault>
    requires few { vec_len desks ≤ most_cores }
    requires named { named ≤ vec_len desks }
    requires all { MayRunAll allocator.now desks.items first lines.now }
    requires inside { All (λ l. cores_in l ≤ named) lines.now }
    ensures round { IfOk result (λ r. RoundRan allocator.now desks.items
        (asks_from first lines.now) r.1.items r.0.items) }
    ensures fault { IfErr result (λ e. e ≡ Fault.NoMemory) }
{
    let done = run_round(rt, alloc, allocator, gate, desks, named, first, lines)?;
    let answers = merge(alloc, first, lines, done.as_slice())?;
    let desks = desks_of(alloc, done)?;
    Ok((desks, answers))
}
