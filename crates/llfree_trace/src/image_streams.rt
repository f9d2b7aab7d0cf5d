//! Images from a reader to a writer: rebuilt, or reported.

ghost use Rattle.std.specs.Prelude.{IfErr, IfOk};
ghost use Rattle.llfree_trace.specs.ImageStreams.{ExplainsImage, IsRebuiltText, IsReportText};
ghost use Rattle.llfree_trace.specs.Streams.{Filters};

use frame_image::{rebuild, report, report_text};
use frame_text::{Watched, image_of, image_text, read_all, write_out};
use frame_words::Fault;
use std::alloc::Global;
use std::io::{Read, Write};

/// Rebuilds the image that the reader has left, and writes the rebuilt one.
///
/// All text is made before the first byte is written.
pub fn rebuild_over<R: Read, W: Write>(
    alloc: Global,
    input: &mut Watched<R>,
    output: &mut Watched<W>,
) -> Result<(), Fault>
    ensures { Filters R.remaining W.contents IsRebuiltText ExplainsImage
        input.old input.new output.old output.new result }
{
    let text = read_all(alloc, input)?;
    let shown = rebuilt_text(alloc, text.as_slice())?;
    write_out(output, shown.as_slice())
}

// The text of the rebuilt image of what a text says.
fn rebuilt_text(alloc: Global, text: &[u8]) -> Result<Vec<u8>, Fault>
    ensures ok { IfOk result (λ out. IsRebuiltText text.now out.items) }
    ensures err { IfErr result (ExplainsImage text.now) }
{
    let image = image_of(alloc, text)?;
    let rebuilt = rebuild(alloc, &image)?;
    let shown = image_text(alloc, &rebuilt)?;
    Ok(shown)
}

/// Writes the report of the image that the reader has left.
///
/// All text is made before the first byte is written.
pub fn report_over<R: Read, W: Write>(
    alloc: Global,
    input: &mut Watched<R>,
    output: &mut Watched<W>,
) -> Result<(), Fault>
    ensures { Filters R.remaining W.contents IsReportText ExplainsImage
        input.old input.new output.old output.new result }
{
    let text = read_all(alloc, input)?;
    let shown = counted_text(alloc, text.as_slice())?;
    write_out(output, shown.as_slice())
}

// The text of the report of what a text says.
fn counted_text(alloc: Global, text: &[u8]) -> Result<Vec<u8>, Fault>
    ensures ok { IfOk result (λ out. IsReportText text.now out.items) }
    ensures err { IfErr result (ExplainsImage text.now) }
{
    let image = image_of(alloc, text)?;
    let counted = report(alloc, &image)?;
    let shown = report_text(alloc, &counted)?;
    Ok(shown)
}
