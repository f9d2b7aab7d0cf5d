//! A run on threads so far: its desks, and its answers.

ghost use Rattle.std.specs.Prelude.{◌≡◌, ◌+◌, ◌<◌, ◌≤◌, ℕ, true, length, take, vec_len};
ghost use Rattle.std.specs.Prelude.{IfOk, IfErr, ◌∷◌, ◌++◌, []};
ghost use Rattle.std.specs.Prelude.{slice_index_or};
ghost use Rattle.std.specs.List.{All};
ghost use Rattle.core_frames.specs.Cores.{memory_of};
ghost use Rattle.core_frames.specs.Desks.{IsDeskOf};
ghost use Rattle.frame_words.specs.Geometry.{most_cores};
ghost use Rattle.llfree_trace.specs.Rounds.{IsAsk, IsNoAsk, GoesOn, GoesOnBy, MayRunAll};
ghost use Rattle.trace_text.specs.Trace.{cores_in, most_records};
ghost use Rattle.trace_text.specs.declared.line.Line.{Line as OneLine};

use crate::gate::Gate;
use crate::merge::answer_round;
use crate::transfers::move_block;
use core_frames::{Allocator, Desk};
use frame_words::Fault;
use std::alloc::Global;
use std::sync::Wait;
use std::thread::Threads;
use trace_text::{Answer, Line, number_after};

/// The desks of all cores, and the answers so far.
#[derive(Drop)]
pub(crate) struct Progress {
    pub(crate) desks: Vec<Desk>,
    pub(crate) answers: Vec<Answer>,
}

/// Runs records, which name so many cores: requests in rounds, every other record between two of them.
pub(crate) fn run_rounds<G: Gate, R: Threads + Wait>(
    rt: &R,
    alloc: Global,
    allocator: &Allocator,
    gate: &G,
    start: Progress,
    named: u32,
    lines: &[Line],
) -> Result<Progress, Fault>
    requires few { vec_len start.desks ≤ most_cores }
    requires named { named ≤ vec_len start.desks }
    requires desks { All (IsDeskOf allocator.now) start.desks.items }
    requires sealed { (memory_of allocator.now).sealed ≡ true }
    requires inside { All (λ l. cores_in l ≤ named) lines.now }
    requires end { length lines.now ≤ most_records }
    ensures goes { IfOk result (λ p. GoesOn allocator.now 1 lines.now start p) }
    ensures fault { IfErr result (λ e. e ≡ Fault.NoMemory) }
{
    let mut progress = start;
    let mut done = 0;
    while done < lines.len() {
        let number = number_after(done);
        let (next, count) = run_part(
            rt,
            alloc,
            allocator,
            gate,
            progress,
            named,
            number,
            &lines[done..],
        )?;
        progress = next;
        done += count;
    }
    Ok(progress)
}

// Runs the first records: the round of all requests that come first, or a record that is none.
// Answers how many they were.
fn run_part<G: Gate, R: Threads + Wait>(
    rt: &R,
    alloc: Global,
    allocator: &Allocator,
    gate: &G,
    progress: Progress,
    named: u32,
    number: u32,
    lines: &[Line],
) -> Result<(Progress, usize), Fault>
    requires few { vec_len progress.desks ≤ most_cores }
    requires named { named ≤ vec_len progress.desks }
    requires desks { All (IsDeskOf allocator.now) progress.desks.items }
    requires sealed { (memory_of allocator.now).sealed ≡ true }
    requires inside { All (λ l. cores_in l ≤ named) lines.now }
    requires lines { (0 < length lines.now) × (number + length lines.now ≤ 2_000_000) }
    ensures goes { IfOk result (λ r.
        GoesOnBy allocator.now number lines.now progress r.0 r.1) }
    ensures fault { IfErr result (λ e. e ≡ Fault.NoMemory) }
{
    let count = asks_before(lines);
    if count == 0 {
        let next = run_mark(allocator, progress, number, &lines[0])?;
        return Ok((next, 1));
    }
    let next = run_asks(
        rt,
        alloc,
        allocator,
        gate,
        progress,
        named,
        number,
        &lines[..count],
    )?;
    Ok((next, count))
}

// How many requests come before the first record that is none.
#[tactic(auto, using(crate::proofs::Workers::ask_more))]
fn asks_before(lines: &[Line]) -> usize
    ensures within { result ≤ length lines.now }
    ensures asks { All IsAsk (take result lines.now) }
    ensures mark { (l : OneLine) → result < length lines.now
        → IsNoAsk (slice_index_or lines.now result l) }
{
    let mut count = 0;
    for line in lines {
        match line {
            Line::Ask { .. } => count += 1,
            _ => return count,
        }
    }
    count
}

// Runs a round.
fn run_asks<G: Gate, R: Threads + Wait>(
    rt: &R,
    alloc: Global,
    allocator: &Allocator,
    gate: &G,
    progress: Progress,
    named: u32,
    number: u32,
    lines: &[Line],
) -> Result<Progress, Fault>
    requires few { vec_len progress.desks ≤ most_cores }
    requires named { named ≤ vec_len progress.desks }
    requires all { MayRunAll allocator.now progress.desks.items number lines.now }
    requires inside { All (λ l. cores_in l ≤ named) lines.now }
    ensures goes { IfOk result (λ p. GoesOn allocator.now number lines.now progress p) }
    ensures fault { IfErr result (λ e. e ≡ Fault.NoMemory) }
{
    let Progress { desks, answers } = progress;
    let (desks, more) = answer_round(rt, alloc, allocator, gate, desks, named, number, lines)?;
    let answers = joined(answers, more)?;
    Ok(Progress { desks, answers })
}

// The answers so far, and then those of a round.
fn joined(answers: Vec<Answer>, more: Vec<Answer>) -> Result<Vec<Answer>, Fault>
    ensures answers { IfOk result (λ all. all.items ≡ answers.items ++ more.items) }
    ensures fault { IfErr result (λ e. e ≡ Fault.NoMemory) }
{
    if answers.is_empty() {
        return Ok(more);
    }
    let mut all = answers;
    all.extend_from_slice(more.as_slice())?;
    Ok(all)
}

// Runs a record that is no request.
fn run_mark(
    allocator: &Allocator,
    progress: Progress,
    number: u32,
    line: &Line,
) -> Result<Progress, Fault>
    requires desks { All (IsDeskOf allocator.now) progress.desks.items }
    requires mark { IsNoAsk line.now }
    requires inside { cores_in line.now ≤ vec_len progress.desks }
    ensures goes { IfOk result (λ p. GoesOn allocator.now number (line.now ∷ []) progress p) }
    ensures fault { IfErr result (λ e. e ≡ Fault.NoMemory) }
{
    match line {
        Line::Ask { .. } => unreachable!(),
        Line::Move { core, label, to } => {
            let Progress {
                mut desks,
                mut answers,
            } = progress;
            let reply = move_block(allocator, &mut desks, *core, label, *to)?;
            answers.push(Answer {
                line: number,
                core: *core,
                reply,
            })?;
            Ok(Progress { desks, answers })
        }
        Line::Round | Line::Reserve { .. } => Ok(progress),
    }
}
