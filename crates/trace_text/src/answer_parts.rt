//! The text of many answers, made in parts, each on a thread of its own.

ghost use Rattle.std.specs.Prelude.{◌≡◌, ◌<◌, ◌≤◌, [], IfErr, IfOk};
ghost use Rattle.frame_words.specs.Geometry.{most_cores};
ghost use Rattle.trace_text.specs.AnswerText.{answers_of, answer_rows_text};

use crate::answers::{answers_text, rows_text};
use crate::in_flight::{Going, TURNS, join_all, keep};
use crate::reply::Answer;
use frame_words::Fault;
use std::alloc::Global;
use std::collections::VecDeque;
use std::sync::Wait;
use std::thread;
use std::thread::{Promise, PromisedHandle, Scope, Threads};

/// The fewest answers whose text is made in parts.
const LEAST_ANSWERS: usize = 4096;

/// The fewest answers that are worth a thread.
const LEAST_PART: usize = 512;

/// What the thread of a part promises: the text of its answers.
#[derive(Drop)]
pub(crate) struct Writing<'a> {
    answers: &'a [Answer],
}

impl<'a> Promise<Result<Vec<u8>, Fault>> for Writing<'a> {
    ghost use Rattle.std.specs.Prelude.{◌≡◌, IfErr, IfOk};
    ghost use Rattle.frame_words.specs.declared.fault.Fault.TheVariants.{NoMemory};
    ghost use Rattle.trace_text.specs.AnswerText.{answer_rows_text};

    ghost kept_by = { λ p r. IfOk r (λ text. text.items ≡ answer_rows_text p.answers.now)
        × IfErr r (λ e. e ≡ NoMemory) };
}

/// The text of answers, as `answers_text` makes it. That of many answers is made in parts, on so many
/// threads at once.
#[tactic(auto, unfolding(crate::specs::AnswerText::answers_of, crate::specs::AnswerText::answer_rows_text))]
pub fn answers_apart<R: Threads + Wait>(
    rt: &R,
    alloc: Global,
    answers: &[Answer],
    held: u32,
    free: u32,
    threads: usize,
) -> Result<Vec<u8>, Fault>
    requires { (0 < threads) × (threads ≤ most_cores) }
    ensures text { IfOk result (λ text. text.items ≡ answers_of answers.now held free) }
    ensures fault { IfErr result (λ e. e ≡ Fault.NoMemory) }
{
    let mut text = if answers.len() < LEAST_ANSWERS {
        rows_text(alloc, answers)?
    } else {
        rows_apart(rt, alloc, answers, threads)?
    };
    let mut last = answers_text(alloc, &[], held, free)?;
    text.append(&mut last)?;
    Ok(text)
}

// The text of answers, a record each, made in parts.
fn rows_apart<R: Threads + Wait>(
    rt: &R,
    alloc: Global,
    answers: &[Answer],
    threads: usize,
) -> Result<Vec<u8>, Fault>
    requires { (0 < threads) × (threads ≤ most_cores) }
    ensures text { IfOk result (λ text. text.items ≡ answer_rows_text answers.now) }
    ensures fault { IfErr result (λ e. e ≡ Fault.NoMemory) }
{
    thread::scope(
        thread::scope_env(),
        rt,
        |scope| -> Result<Vec<u8>, Fault>
            requires { (0 < threads) × (threads ≤ most_cores) }
            ensures text { IfOk result (λ text. text.items ≡ answer_rows_text answers.entry.now) }
            ensures fault { IfErr result (λ e. e ≡ Fault.NoMemory) }
        {
            let mut going = VecDeque::new(alloc);
            let text = write_parts(scope, rt, alloc, answers, threads, &mut going);
            // Each thread is joined, also where memory ran out.
            join_all(rt, &mut going);
            text
        },
    )
}

// Makes the text part by part: as long as fewer threads are going than may be, that of the next part is
// started, and else the first is joined, and its text is put behind that so far.
fn write_parts<'s, E, R: Threads>(
    scope: &Scope<'s, E>,
    rt: &R,
    alloc: Global,
    answers: &'s [Answer],
    threads: usize,
    going: &mut Going<Result<Vec<u8>, Fault>, Writing<'s>>,
) -> Result<Vec<u8>, Fault>
    requires none { going.old.items ≡ [] }
    requires some { (0 < threads) × (threads ≤ most_cores) }
    ensures text { IfOk result (λ text. text.items ≡ answer_rows_text answers.now) }
    ensures fault { IfErr result (λ e. e ≡ Fault.NoMemory) }
{
    let size = (answers.len() / (TURNS * threads)).max(LEAST_PART);
    let mut text = Vec::new(alloc);
    let mut rest = answers;
    loop {
        if going.len() < threads && !rest.is_empty() {
            let (part, behind) = rest.split_at(size.min(rest.len()));
            let child = start(scope, alloc, part)?;
            keep(rt, going, child)?;
            rest = behind;
            continue;
        }
        let Some(child) = going.pop_front() else {
            break;
        };
        let mut more = child.join(rt)?;
        text.append(&mut more)?;
    }
    let mut last = rows_text(alloc, rest)?;
    text.append(&mut last)?;
    Ok(text)
}

// Starts the thread of a part.
fn start<'s, E>(
    scope: &Scope<'s, E>,
    alloc: Global,
    answers: &'s [Answer],
) -> Result<PromisedHandle<Result<Vec<u8>, Fault>, Writing<'s>>, Fault>
    ensures promise { IfOk result (λ h. h.promise.answers.now ≡ answers.now) }
    ensures fault { IfErr result (λ e. e ≡ Fault.NoMemory) }
{
    let promise = Writing { answers };
    let write = move || -> Result<Vec<u8>, Fault>
        ensures text { IfOk result (λ text. text.items ≡ answer_rows_text answers.entry.now) }
        ensures fault { IfErr result (λ e. e ≡ Fault.NoMemory) }
    { rows_text(alloc, answers) };
    match scope.spawn_with(promise, write) {
        Ok(child) => Ok(child),
        Err(_) => Err(Fault::NoMemory),
    }
}
