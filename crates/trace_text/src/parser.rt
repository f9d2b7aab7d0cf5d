//! How a text is read as a trace.

ghost use Rattle.std.specs.Prelude.{◌≡◌, ◌<◌, ◌≤◌, ◌^◌, ◌++◌, length, IfErr, IfOk, IfSome, OnOk};
ghost use Rattle.std.specs.Option.{option_copied};
ghost use Rattle.csv.specs.Records.{fields_of};
ghost use Rattle.frame_text.specs.Numbers.{number_below as the_number_below};
ghost use Rattle.frame_words.specs.Geometry.{most_cores};
ghost use Rattle.trace_text.specs.Trace.{core_count, cores_in, most_records, range_in};
ghost use Rattle.trace_text.specs.TraceText as Spec;
ghost use Rattle.trace_text.specs.TraceText.{ExplainsTrace, trace_of};

use crate::line::{Line, Request, Trace, cores_with, number_after};
use csv::ByteRecord;
use frame_text::{RecordReader, field, number_below};
use frame_words::{Fault, Geometry};
use held_blocks::Label;
use std::alloc::{AllocError, Global};

/// The most records of a trace.
pub(crate) const MOST_RECORDS: usize = 1_000_000;

/// The fewest bytes of a record, with the end of its line: `,round,,`.
const LEAST_RECORD: usize = 9;

/// Reads a text as a trace for the cores of the geometry.
///
/// `BadTrace` names the lowest refused record.
pub fn parse_trace(alloc: Global, geometry: &Geometry, text: &[u8]) -> Result<Trace, Fault>
    ensures found { IfOk result (λ trace. trace_of geometry.now.cores text.now ≡ Ok trace) }
    ensures cores { IfOk result (λ trace. core_count trace ≤ geometry.now.cores) }
    ensures refused { IfErr result (λ e. ExplainsTrace e (trace_of geometry.now.cores text.now)) }
{
    let cores = geometry.cores();
    let mut records = RecordReader::new(alloc, text);
    let mut row = ByteRecord::new(alloc);
    let mut lines = Vec::with_capacity(alloc, most_records_of(text))?;
    let mut named = 0;
    let mut ranges = Vec::new(alloc);
    loop {
        let found = records.read(&mut row)?;
        if !found {
            return Ok(Trace::of(lines, ranges, named));
        }
        let number = number_after(lines.len());
        match line_after(cores, lines.as_slice(), &row) {
            Some(line) => {
                note_range(&mut ranges, &line)?;
                named = cores_with(named, &line);
                lines.push(line)?;
            }
            None => return Err(Fault::BadTrace { line: number }),
        }
    }
}

/// How many records a text has at most, so that room for them is made once.
pub(crate) fn most_records_of(text: &[u8]) -> usize {
    (text.len() / LEAST_RECORD + 1).min(MOST_RECORDS)
}

// Adds the range that a record holds back, if it is of that kind.
fn note_range(ranges: &mut Vec<(u32, u32)>, line: &Line) -> Result<(), AllocError>
    ensures { OnOk result (ranges.new.items ≡ ranges.old.items ++ range_in line.now) }
{
    if let Line::Reserve { frame, count } = line {
        ranges.push((*frame, *count))?;
    }
    Ok(())
}

// The record behind those so far, where this row is one.
#[tactic(auto, unfolding(crate::specs::TraceText::line_after))]
fn line_after(cores: u32, lines: &[Line], row: &ByteRecord) -> Option<Line>
    requires { cores ≤ most_cores }
    ensures value { result ≡ Spec.line_after cores lines.now (fields_of row.now) }
    ensures core { IfSome result (λ line. cores_in line ≤ cores) }
    ensures few { IfSome result (λ _. length lines.now < most_records) }
{
    if lines.len() >= MOST_RECORDS {
        return None;
    }
    let line = line_of(cores, row)?;
    if !may_follow(lines.last(), &line) {
        return None;
    }
    Some(line)
}

// A record of four fields.
#[tactic(auto, unfolding(crate::specs::TraceText::line_of))]
fn line_of(cores: u32, row: &ByteRecord) -> Option<Line>
    requires { cores ≤ most_cores }
    ensures value { result ≡ Spec.line_of cores (fields_of row.now) }
    ensures core { IfSome result (λ line. cores_in line ≤ cores) }
{
    if row.len() != 4 {
        return None;
    }
    record_of(
        cores,
        field(row, 0),
        field(row, 1),
        field(row, 2),
        field(row, 3),
    )
}

/// Whether a record may come straight behind that one, or first where there is none.
#[tactic(auto, unfolding(crate::specs::TraceText::may_follow))]
pub(crate) fn may_follow(before: Option<&Line>, line: &Line) -> bool
    ensures { result ≡ Spec.may_follow (option_copied before.entry) line.now }
{
    match line {
        Line::Reserve { .. } => matches!(before, None | Some(Line::Reserve { .. })),
        Line::Move { .. } => matches!(before, Some(Line::Round | Line::Move { .. })),
        Line::Ask { .. } | Line::Round => true,
    }
}

// A record, by its four fields.
#[tactic(auto, unfolding(crate::specs::TraceText::record_of))]
fn record_of(cores: u32, core: &[u8], word: &[u8], third: &[u8], fourth: &[u8]) -> Option<Line>
    requires { cores ≤ most_cores }
    ensures value { result ≡ Spec.record_of cores core.now word.now third.now fourth.now }
    ensures core { IfSome result (λ line. cores_in line ≤ cores) }
{
    if word == b"round".as_slice() {
        round_of(core, third, fourth)
    } else if word == b"reserve".as_slice() {
        reserve_of(core, third, fourth)
    } else if word == b"move".as_slice() {
        move_of(cores, core, third, fourth)
    } else {
        ask_of(cores, core, word, third, fourth)
    }
}

// The end of a round, with nothing beside the word.
#[tactic(auto, unfolding(crate::specs::TraceText::round_of))]
fn round_of(core: &[u8], third: &[u8], fourth: &[u8]) -> Option<Line>
    ensures value { result ≡ Spec.round_of core.now third.now fourth.now }
    ensures core { IfSome result (λ line. cores_in line ≡ 0) }
{
    if core.is_empty() && third.is_empty() && fourth.is_empty() {
        return Some(Line::Round);
    }
    None
}

// A range that is held back, for no core.
#[tactic(auto, unfolding(crate::specs::TraceText::reserve_of))]
fn reserve_of(core: &[u8], frame: &[u8], count: &[u8]) -> Option<Line>
    ensures value { result ≡ Spec.reserve_of core.now frame.now count.now }
    ensures core { IfSome result (λ line. cores_in line ≡ 0) }
{
    if !core.is_empty() {
        return None;
    }
    let frame = frame_of(frame)?;
    let count = frame_of(count)?;
    Some(Line::Reserve { frame, count })
}

// A move of the oldest block under a label from one core to another.
#[tactic(auto, unfolding(crate::specs::TraceText::move_of))]
fn move_of(cores: u32, core: &[u8], label: &[u8], to: &[u8]) -> Option<Line>
    requires { cores ≤ most_cores }
    ensures value { result ≡ Spec.move_of cores core.now label.now to.now }
    ensures core { IfSome result (λ line. cores_in line ≤ cores) }
{
    let core = core_of(core, cores)?;
    let label = Label::of(label)?;
    let to = core_of(to, cores)?;
    Some(Line::Move { core, label, to })
}

// A core and what it asks for.
#[tactic(auto, unfolding(crate::specs::TraceText::ask_of))]
fn ask_of(cores: u32, core: &[u8], word: &[u8], third: &[u8], fourth: &[u8]) -> Option<Line>
    requires { cores ≤ most_cores }
    ensures value { result ≡ Spec.ask_of cores core.now word.now third.now fourth.now }
    ensures core { IfSome result (λ line. cores_in line ≤ cores) }
{
    let core = core_of(core, cores)?;
    let request = request_of(word, third, fourth)?;
    Some(Line::Ask { core, request })
}

// What a record asks for, by its last three fields.
#[tactic(auto, unfolding(crate::specs::TraceText::request_of))]
fn request_of(word: &[u8], third: &[u8], fourth: &[u8]) -> Option<Request>
    ensures { result ≡ Spec.request_of word.now third.now fourth.now }
{
    if word == b"take".as_slice() {
        take_of(third, fourth)
    } else if word == b"give".as_slice() {
        give_of(third, fourth)
    } else if word == b"giveat".as_slice() {
        give_at_of(third, fourth)
    } else {
        None
    }
}

// A take under a label, of an order.
#[tactic(auto, unfolding(crate::specs::TraceText::take_of))]
fn take_of(label: &[u8], order: &[u8]) -> Option<Request>
    ensures { result ≡ Spec.take_of label.now order.now }
{
    let label = Label::of(label)?;
    let order = order_of(order)?;
    Some(Request::Take { label, order })
}

// A give of the oldest block under a label, with nothing behind it.
#[tactic(auto, unfolding(crate::specs::TraceText::give_of))]
fn give_of(label: &[u8], nothing: &[u8]) -> Option<Request>
    ensures { result ≡ Spec.give_of label.now nothing.now }
{
    if !nothing.is_empty() {
        return None;
    }
    let label = Label::of(label)?;
    Some(Request::Give { label })
}

// A give of exactly one block.
#[tactic(auto, unfolding(crate::specs::TraceText::give_at_of))]
fn give_at_of(frame: &[u8], order: &[u8]) -> Option<Request>
    ensures { result ≡ Spec.give_at_of frame.now order.now }
{
    let frame = frame_of(frame)?;
    let order = order_of(order)?;
    Some(Request::GiveAt { frame, order })
}

// A core, as a field spells it.
fn core_of(field: &[u8], cores: u32) -> Option<u32>
    ensures value { result ≡ the_number_below cores field.now }
    ensures below { IfSome result (λ core. core < cores) }
{
    match number_below(field, u64::from(cores)) {
        Some(core) => Some(core as u32),
        None => None,
    }
}

// An order, as a field spells it.
fn order_of(field: &[u8]) -> Option<u8>
    ensures { result ≡ the_number_below 256 field.now }
{
    match number_below(field, 256) {
        Some(order) => Some(order as u8),
        None => None,
    }
}

// A frame or a number of frames, as a field spells it.
fn frame_of(field: &[u8]) -> Option<u32>
    ensures { result ≡ the_number_below (2 ^ 32) field.now }
{
    match number_below(field, 1 << 32) {
        Some(frame) => Some(frame as u32),
        None => None,
    }
}
