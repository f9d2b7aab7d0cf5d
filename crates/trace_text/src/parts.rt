//! A long text, read as a trace in parts, each on a thread of its own.

ghost use Rattle.std.specs.Prelude.{◌≡◌, ◌≤◌, ◌<◌, ◌-◌, [], false, length, slice_index};
ghost use Rattle.std.specs.Prelude.{IfErr, IfOk, IfSome};
ghost use Rattle.csv.specs.Reading.{strip_bom};
ghost use Rattle.trace_text.specs.Parts.{IsCut, IsJoint, IsReadingOf, SaysPlainly, line_feed};
ghost use Rattle.trace_text.specs.Parts.{goes_behind as the_first_goes_behind};
ghost use Rattle.trace_text.specs.Trace.{core_count};
ghost use Rattle.trace_text.specs.TraceText.{ExplainsTrace, trace_of};

use crate::in_flight::{Going, TURNS, join_all, keep};
use crate::line::{Line, Trace};
use crate::parser::{MOST_RECORDS, may_follow, most_records_of, parse_trace};
use frame_words::{Fault, Geometry};
use memchr::memrchr;
use std::alloc::Global;
use std::collections::VecDeque;
use std::sync::Wait;
use std::thread;
use std::thread::{Promise, PromisedHandle, Scope, Threads};

/// The least bytes of a text that is read in parts.
const LEAST_TEXT: usize = 65_536;

/// The least bytes that are worth a thread.
const LEAST_PART: usize = 8192;

/// The first byte of a byte order mark.
const MARK: u8 = 0xEF;

/// What the thread of a part promises: the trace that its text says, if it answers one.
#[derive(Drop)]
pub(crate) struct Reading<'a> {
    cores: u32,
    text: &'a [u8],
}

impl<'a> Promise<Result<Option<Trace>, Fault>> for Reading<'a> {
    ghost use Rattle.std.specs.Prelude.{◌≡◌, IfErr, IfOk, IfSome};
    ghost use Rattle.frame_words.specs.declared.fault.Fault.TheVariants.{NoMemory};
    ghost use Rattle.trace_text.specs.Parts.{SaysPlainly};

    ghost kept_by = { λ p r. IfOk r (λ found. IfSome found (SaysPlainly p.cores p.text.now))
        × IfErr r (λ e. e ≡ NoMemory) };
}

/// Reads a text as a trace, as `parse_trace` does. A long text without a quote is read in parts, on as
/// many threads at once as there are cores; where that finds a record refused, the whole is read again.
pub fn parse_parts<R: Threads + Wait>(
    rt: &R,
    alloc: Global,
    geometry: &Geometry,
    text: &[u8],
) -> Result<Trace, Fault>
    ensures found { IfOk result (λ trace. trace_of geometry.now.cores text.now ≡ Ok trace) }
    ensures cores { IfOk result (λ trace. core_count trace ≤ geometry.now.cores) }
    ensures refused { IfErr result (λ e. ExplainsTrace e (trace_of geometry.now.cores text.now)) }
{
    if text.len() >= LEAST_TEXT && !has_mark(text) {
        if let Some(trace) = read_apart(rt, alloc, geometry, text)? {
            return Ok(trace);
        }
    }
    parse_trace(alloc, geometry, text)
}

// Reads a text in parts. `None` where it is to be read whole: a part has a quote, or a record is
// refused.
fn read_apart<R: Threads + Wait>(
    rt: &R,
    alloc: Global,
    geometry: &Geometry,
    text: &[u8],
) -> Result<Option<Trace>, Fault>
    requires { strip_bom text.now ≡ text.now }
    ensures found { IfOk result (λ found. IfSome found (SaysPlainly geometry.now.cores text.now)) }
    ensures fault { IfErr result (λ e. e ≡ Fault.NoMemory) }
{
    thread::scope(
        thread::scope_env(),
        rt,
        |scope| -> Result<Option<Trace>, Fault>
            requires { strip_bom text.now ≡ text.now }
            ensures found { IfOk result (λ found.
                IfSome found (SaysPlainly geometry.entry.now.cores text.entry.now)) }
            ensures fault { IfErr result (λ e. e ≡ Fault.NoMemory) }
        {
            let mut going = VecDeque::new(alloc);
            let read = read_parts(scope, rt, alloc, geometry, text, &mut going);
            // Each thread is joined, also where one of them ended the reading.
            join_all(rt, &mut going);
            read
        },
    )
}

// Reads a text part by part: as long as fewer threads are going than there are cores, that of the next
// part is started, and else the first is joined, and its records are put behind those so far.
fn read_parts<'s, E, R: Threads>(
    scope: &Scope<'s, E>,
    rt: &R,
    alloc: Global,
    geometry: &'s Geometry,
    text: &'s [u8],
    going: &mut Going<Result<Option<Trace>, Fault>, Reading<'s>>,
) -> Result<Option<Trace>, Fault>
    requires none { going.old.items ≡ [] }
    requires unmarked { strip_bom text.now ≡ text.now }
    ensures found { IfOk result (λ found. IfSome found (SaysPlainly geometry.now.cores text.now)) }
    ensures fault { IfErr result (λ e. e ≡ Fault.NoMemory) }
{
    let most = geometry.cores() as usize;
    let size = (text.len() / (TURNS * most)).max(LEAST_PART);
    let lines = Vec::with_capacity(alloc, most_records_of(text))?;
    let mut trace = Trace::of(lines, Vec::new(alloc), 0);
    let mut rest = text;
    loop {
        if going.len() < most {
            if let Some((part, behind)) = cut(rest, size) {
                let child = start(scope, alloc, geometry, part)?;
                keep(rt, going, child)?;
                rest = behind;
                continue;
            }
        }
        let Some(child) = going.pop_front() else {
            break;
        };
        let Some(part) = child.join(rt)? else {
            return Ok(None);
        };
        let Some(more) = joined(trace, part)? else {
            return Ok(None);
        };
        trace = more;
    }
    match read_part(alloc, geometry, rest)? {
        Some(last) => joined(trace, last),
        None => Ok(None),
    }
}

// Starts the thread of a part.
fn start<'s, E>(
    scope: &Scope<'s, E>,
    alloc: Global,
    geometry: &'s Geometry,
    text: &'s [u8],
) -> Result<PromisedHandle<Result<Option<Trace>, Fault>, Reading<'s>>, Fault>
    ensures promise { IfOk result (λ h. IsReadingOf geometry.now.cores text.now h.promise) }
    ensures fault { IfErr result (λ e. e ≡ Fault.NoMemory) }
{
    let promise = Reading {
        cores: geometry.cores(),
        text,
    };
    let read = move || -> Result<Option<Trace>, Fault>
        ensures found { IfOk result (λ found.
            IfSome found (SaysPlainly geometry.entry.now.cores text.entry.now)) }
        ensures fault { IfErr result (λ e. e ≡ Fault.NoMemory) }
    { read_part(alloc, geometry, text) };
    match scope.spawn_with(promise, read) {
        Ok(child) => Ok(child),
        Err(_) => Err(Fault::NoMemory),
    }
}

// Reads a part. `None` where it has a quote, or a record is refused.
fn read_part(alloc: Global, geometry: &Geometry, text: &[u8]) -> Result<Option<Trace>, Fault>
    ensures found { IfOk result (λ found. IfSome found (SaysPlainly geometry.now.cores text.now)) }
    ensures fault { IfErr result (λ e. e ≡ Fault.NoMemory) }
{
    if text.contains(&b'"') {
        return Ok(None);
    }
    match parse_trace(alloc, geometry, text) {
        Ok(trace) => Ok(Some(trace)),
        Err(Fault::NoMemory) => Err(Fault::NoMemory),
        Err(_) => Ok(None),
    }
}

// Cuts a part of about this size off the front of a text, behind the last line feed in it.
fn cut(text: &[u8], size: usize) -> Option<(&[u8], &[u8])>
    ensures { IfSome result (λ c. IsCut text.now c.0.now c.1.now) }
{
    let end = line_end(text, size.min(text.len()))?;
    let (part, behind) = text.split_at(end);
    if part.len() < 3 || has_mark(behind) {
        return None;
    }
    Some((part, behind))
}

// The end of the last line that ends within so many bytes.
fn line_end(text: &[u8], size: usize) -> Option<usize>
    requires { size ≤ length text.now }
    ensures inside { IfSome result (λ end. (0 < end) × (end ≤ length text.now)) }
    ensures feed { IfSome result (λ end. slice_index text.now (end - 1) ≡ line_feed) }
{
    let feed = memrchr(b'\n', &text[..size])?;
    Some(feed + 1)
}

// The records of two parts. `None` where those of the second may not come behind.
fn joined(front: Trace, behind: Trace) -> Result<Option<Trace>, Fault>
    ensures joint { IfOk result (λ found. IfSome found (IsJoint front behind)) }
    ensures fault { IfErr result (λ e. e ≡ Fault.NoMemory) }
{
    if front.lines().len() + behind.lines().len() > MOST_RECORDS
        || !goes_behind(front.lines(), behind.lines())
    {
        return Ok(None);
    }
    Ok(Some(front.followed_by(behind)?))
}

// Whether the first of these records, if there is one, may come straight behind the others.
fn goes_behind(front: &[Line], behind: &[Line]) -> bool
    ensures { result ≡ the_first_goes_behind front.now behind.now }
{
    match behind.first() {
        Some(line) => may_follow(front.last(), line),
        None => true,
    }
}

// Whether a text begins as a byte order mark does, which would not be read as part of a record.
fn has_mark(text: &[u8]) -> bool
    ensures { result ≡ false → strip_bom text.now ≡ text.now }
{
    match text.first() {
        Some(byte) => *byte == MARK,
        None => false,
    }
}
