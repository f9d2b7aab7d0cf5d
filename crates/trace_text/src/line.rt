//! The records of a trace.

ghost use Rattle.std.specs.Prelude.{◌≡◌, ◌≤◌, ◌+◌, ◌++◌, length, max, IfOk};
ghost use Rattle.frame_words.specs.Geometry.{most_cores};
ghost use Rattle.trace_text.specs.Trace.{core_count, cores_in as the_cores_in, most_records, ranges_in};

use held_blocks::Label;
use std::alloc::AllocError;
use std::marker::Model;

/// What a core asks for.
#[derive(Drop)]
pub enum Request {
    Take { label: Label, order: u8 },
    Give { label: Label },
    GiveAt { frame: u32, order: u8 },
}

/// A record of a trace.
#[derive(Drop)]
pub enum Line {
    Ask { core: u32, request: Request },
    /// The oldest block under the label goes from the core's list to the end of the other's.
    Move { core: u32, label: Label, to: u32 },
    /// The end of a round, which has no answer.
    Round,
    /// A range that is held back: from this frame on, nobody is ever given so many frames. It has no
    /// answer.
    Reserve { frame: u32, count: u32 },
}

/// The records of a trace, in order: at most 1,000,000.
#[derive(Drop)]
pub struct Trace {
    lines: Vec<Line>,
    // The ranges of the records, in order.
    ranges: Vec<(u32, u32)>,
    cores: u32,
}

impl Model for Trace {
    ghost use Rattle.std.specs.Prelude.{List, ◌≡◌, ◌≤◌, length};
    ghost use Rattle.trace_text.specs.declared.line.Line.{Line};
    ghost use Rattle.frame_words.specs.Geometry.{most_cores};
    ghost use Rattle.trace_text.specs.Trace.{core_count, most_records, ranges_in};

    ghost Value = { List Line };

    ghost view = { λ t. t.lines.items };

    ghost invariant = { λ t. (length t.lines.items ≤ most_records)
        × (core_count t.lines.items ≤ most_cores)
        × (t.ranges.items ≡ ranges_in t.lines.items)
        × (t.cores ≡ core_count t.lines.items) };
}

impl Trace {
    // The trace of these records, beside the ranges that they hold back and the cores that they name.
    pub(crate) fn of(lines: Vec<Line>, ranges: Vec<(u32, u32)>, cores: u32) -> Trace
        requires few { length lines.items ≤ most_records }
        requires cores { (cores ≡ core_count lines.items) × (cores ≤ most_cores) }
        requires ranges { ranges.items ≡ ranges_in lines.items }
        ensures { result ≡ lines.items }
    {
        Trace {
            lines,
            ranges,
            cores,
        }
    }

    // These records, and behind them the others.
    pub(crate) fn followed_by(self, behind: Trace) -> Result<Trace, AllocError>
        requires { length self + length behind ≤ most_records }
        ensures { IfOk result (λ trace. trace ≡ self ++ behind) }
    {
        let Trace {
            mut lines,
            mut ranges,
            cores,
        } = self;
        let Trace {
            lines: mut more_lines,
            ranges: mut more_ranges,
            cores: more_cores,
        } = behind;
        lines.append(&mut more_lines)?;
        ranges.append(&mut more_ranges)?;
        Ok(Trace {
            lines,
            ranges,
            cores: cores.max(more_cores),
        })
    }

    /// The records, in order.
    pub fn lines(&self) -> &[Line]
        ensures value { result.now ≡ self.now }
        ensures few { length result.now ≤ most_records }
    {
        self.lines.as_slice()
    }

    /// One more than the greatest core that a record names, or 0 where none names one.
    pub fn cores(&self) -> u32
        ensures value { result ≡ core_count self.now }
        ensures few { result ≤ most_cores }
    {
        self.cores
    }

    /// The ranges that the records hold back, in their order: the first frame of each, and how many
    /// frames it has.
    pub fn ranges(&self) -> &[(u32, u32)]
        ensures { result.now ≡ ranges_in self.now }
    {
        self.ranges.as_slice()
    }
}

/// The number of the record behind so many.
pub fn number_after(count: usize) -> u32
    requires { count ≤ most_records }
    ensures { result ≡ count + 1 }
{
    count as u32 + 1
}

/// The cores that a record names, where those before it name so many.
pub(crate) fn cores_with(count: u32, line: &Line) -> u32
    requires { the_cores_in line.now ≤ most_cores }
    ensures { result ≡ max (the_cores_in line.now) count }
{
    cores_in(line).max(count)
}

// One more than the greatest core that a record names.
fn cores_in(line: &Line) -> u32
    requires { the_cores_in line.now ≤ most_cores }
    ensures { result ≡ the_cores_in line.now }
{
    match line {
        Line::Ask { core, .. } => *core + 1,
        Line::Move { core, to, .. } => (*core).max(*to) + 1,
        Line::Round | Line::Reserve { .. } => 0,
    }
}
