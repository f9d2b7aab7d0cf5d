//! The requests of one core, on one thread.

ghost use Rattle.std.specs.Prelude.{◌≡◌, ◌≢◌, ◌≤◌, ◌+◌, true, IfOk, IfErr, IfSome, IfNone};
ghost use Rattle.std.specs.Bool.{OnFalse};
ghost use Rattle.std.specs.List.{All};
ghost use Rattle.held_blocks.specs.Desk.{MayRefuse};
ghost use Rattle.core_frames.specs.Cores.{memory_of, lent_by};
ghost use Rattle.core_frames.specs.Desks.{list_of, core_of, IsDeskOf};
ghost use Rattle.llfree_trace.specs.Outcome.{DeskStep};
ghost use Rattle.llfree_trace.specs.Rounds.{IsNoAskOf, IsTakenReply, MayRun, Ran, asks_from, given_reply};
ghost use Rattle.trace_text.specs.Trace.{cores_in};

use crate::gate::Gate;
use core_frames::{Allocator, Desk};
use frame_words::Fault;
use std::alloc::Global;
use trace_text::{Answer, Line, Reply, Request};

/// A desk after its requests, and its answers to them.
#[derive(Drop)]
pub(crate) struct Done {
    pub(crate) desk: Desk,
    pub(crate) answers: Vec<Answer>,
}

/// Runs the requests of one core, in order. The first record has this number.
pub(crate) fn run_lines<G: Gate>(
    alloc: Global,
    allocator: &Allocator,
    gate: &G,
    core: u32,
    mut desk: Desk,
    first: u32,
    lines: &[Line],
) -> Result<Done, Fault>
    requires { MayRun allocator.now desk first lines.now }
    ensures ran { IfOk result (λ d. Ran allocator.now core desk (asks_from first lines.now) d) }
    ensures fault { IfErr result (λ e. e ≡ Fault.NoMemory) }
{
    let mut answers = Vec::new(alloc);
    let mut number = first;
    for line in lines {
        if let Some(request) = request_of(core, line) {
            let answer = answer_at(&mut desk, allocator, gate, core, number, request)?;
            answers.push(answer)?;
        }
        number += 1;
    }
    Ok(Done { desk, answers })
}

/// Whether a core has requests among records that name so many cores.
#[tactic(auto, using(crate::proofs::Workers::none_named, crate::proofs::Workers::none_more))]
pub(crate) fn has_lines(core: u32, named: u32, lines: &[Line]) -> bool
    requires { All (λ l. cores_in l ≤ named) lines.now }
    ensures { OnFalse result (All (IsNoAskOf core) lines.now) }
{
    if core >= named {
        return false;
    }
    for line in lines {
        match request_of(core, line) {
            Some(_) => return true,
            None => {}
        }
    }
    false
}

// What a core asks for by a record, if the record is its own.
fn request_of(core: u32, line: &Line) -> Option<&Request>
    ensures some { IfSome result (λ r. line.now ≡ Line.Ask core r.now) }
    ensures none { IfNone result (IsNoAskOf core line.now) }
{
    match line {
        Line::Ask { core: own, request } if *own == core => Some(request),
        _ => None,
    }
}

// Answers the request of the record with this number, between the calls of the gate. Refused only
// for lack of memory.
fn answer_at<G: Gate>(
    desk: &mut Desk,
    allocator: &Allocator,
    gate: &G,
    core: u32,
    number: u32,
    request: &Request,
) -> Result<Answer, Fault>
    requires desk { IsDeskOf allocator.now desk.old }
    requires sealed { (memory_of allocator.now).sealed ≡ true }
    ensures desk { IsDeskOf allocator.now desk.new }
    ensures place { IfOk result (λ a. (a.line ≡ number) × (a.core ≡ core)) }
    ensures step { IfOk result (λ a. DeskStep MayRefuse (memory_of allocator.now)
        (list_of desk.old) request.now a.reply (list_of desk.new)) }
    ensures lent { lent_by (core_of desk.new) ≡ lent_by (core_of desk.old) }
    ensures fault { IfErr result (λ e. e ≡ Fault.NoMemory) }
{
    gate.before(core, number);
    let reply = answer(desk, allocator, request)?;
    gate.after(core, number);
    Ok(Answer {
        line: number,
        core,
        reply,
    })
}

// Answers a request. Refused only for lack of memory.
#[tactic(auto, using(crate::proofs::Replies::steps))]
fn answer(desk: &mut Desk, allocator: &Allocator, request: &Request) -> Result<Reply, Fault>
    requires desk { IsDeskOf allocator.now desk.old }
    requires sealed { (memory_of allocator.now).sealed ≡ true }
    ensures desk { IsDeskOf allocator.now desk.new }
    ensures step { IfOk result (λ r. DeskStep MayRefuse (memory_of allocator.now) (list_of desk.old)
        request.now r (list_of desk.new)) }
    ensures lent { lent_by (core_of desk.new) ≡ lent_by (core_of desk.old) }
    ensures fault { IfErr result (λ e. e ≡ Fault.NoMemory) }
{
    match request {
        Request::Take { label, order } => taken(desk.take(allocator, label.again(), *order)),
        Request::Give { label } => Ok(given(desk.give(allocator, label))),
        Request::GiveAt { frame, order } => Ok(given(desk.give_at(allocator, *frame, *order))),
    }
}

// The reply to a give.
fn given(outcome: Result<(u32, u8), Fault>) -> Reply
    ensures { result ≡ given_reply outcome }
{
    match outcome {
        Ok((frame, order)) => Reply::Given(frame, order),
        Err(refusal) => Reply::Refused(refusal),
    }
}

// The reply to a take, but where memory ran out.
#[tactic(auto, using(crate::proofs::Replies::refused_if))]
fn taken(outcome: Result<(u32, u8), Fault>) -> Result<Reply, Fault>
    ensures reply { IfOk result (IsTakenReply outcome) }
    ensures fault { IfErr result (λ e. e ≡ Fault.NoMemory) }
{
    match outcome {
        Ok((frame, order)) => Ok(Reply::Taken(frame, order)),
        Err(refusal) => refused(refusal),
    }
}

// A refusal as a reply, but where memory ran out.
fn refused(refusal: Fault) -> Result<Reply, Fault>
    ensures reply { IfOk result (λ r. (r ≡ Reply.Refused refusal) × (refusal ≢ Fault.NoMemory)) }
    ensures fault { IfErr result (λ e. e ≡ Fault.NoMemory) }
{
    if refusal == Fault::NoMemory {
        return Err(Fault::NoMemory);
    }
    Ok(Reply::Refused(refusal))
}
