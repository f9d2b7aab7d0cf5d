//! What each trace is told by: a law, proved as the contract of a function that does nothing.

ghost use Rattle.trace_text.specs.Spelling.{AreMost, IsSampleSpelled, TracesReadBack};

/// The text of each trace reads as that trace: of records in an order that is allowed, with labels and
/// numbers in range, at most 1,000,000, each spelled as `csv` writes its four fields. So each trace has a
/// text, and no two have the same one.
pub fn every_trace_reads_back()
    ensures read { TracesReadBack }
    ensures sample { IsSampleSpelled }
    ensures most { AreMost }
{}
