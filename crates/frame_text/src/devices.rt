//! All that a reader has left, and a whole text to a writer.

ghost use Rattle.std.specs.Prelude.{◌≡◌, ◌<◌, ◌≤◌, ◌⊎◌, length, true, false};
ghost use Rattle.std.specs.Prelude.{IfOk, IfErr, IfSome, IsErr, IsErrOf, OnErr, OnOk};
ghost use Rattle.std.specs.Result.{is_err};
ghost use Rattle.std.specs.Io.KnownBytes.{Appends};
ghost use Rattle.frame_text.specs.Devices.{device_of, has_failed, IsReadOut, WritesFront};

use super::watched::Watched;
use frame_words::Fault;
use std::alloc::Global;
use std::io::{Read, Write};

/// The most bytes of an input.
pub const MOST_BYTES: usize = 16_777_216;

// How many bytes a read asks for.
const PIECE: usize = 8192;

/// All that the reader has left, up to its end.
///
/// Every error of the reader ends the call: none is retried.
pub fn read_all<R: Read>(alloc: Global, input: &mut Watched<R>) -> Result<Vec<u8>, Fault>
    ensures all { IfOk result (λ text.
        IfSome (R.remaining (device_of input.old)) (λ bytes. text.items ≡ bytes)) }
    ensures end { OnOk result (IsReadOut (R.remaining (device_of input.new)) input.new) }
    ensures limit { IfOk result (λ text. length text.items ≤ MOST_BYTES) }

    // The reader failed, or its text is too long.
    ensures failed { has_failed input.new ≡ true → IsErrOf result Fault.ReadFailed }
    ensures too_long { IsErrOf result Fault.ReadFailed → (has_failed input.new ≡ true)
        ⊎ IfSome (R.remaining (device_of input.old)) (λ bytes. MOST_BYTES < length bytes) }
    ensures others { IfErr result (λ e. (e ≡ Fault.ReadFailed) ⊎ (e ≡ Fault.NoMemory)) }

    // A reader that has failed before is left as it was.
    ensures stays { has_failed input.old ≡ true → input.new ≡ input.old }
{
    let mut text = Vec::new(alloc);
    let mut buffer = [0u8; PIECE];
    loop {
        let count = input.read(&mut buffer)?;
        if count == 0 {
            return Ok(text);
        }
        if count > MOST_BYTES - text.len() {
            return Err(Fault::ReadFailed);
        }
        text.extend_from_slice(&buffer[..count])?;
    }
}

/// Writes the text, all of it.
///
/// Every error of the writer ends the call: none is retried. It takes no memory.
pub fn write_out<W: Write>(output: &mut Watched<W>, text: &[u8]) -> Result<(), Fault>
    ensures all { OnOk result (Appends (W.contents (device_of output.old))
        (W.contents (device_of output.new)) text.now) }
    ensures sound { has_failed output.new ≡ is_err result }
    ensures fault { IfErr result (λ e. e ≡ Fault.WriteFailed) }
    ensures front { OnErr result (WritesFront (W.contents (device_of output.old))
        (W.contents (device_of output.new)) text.now) }

    // A writer that has failed before is left as it was.
    ensures stays { has_failed output.old ≡ true → (output.new ≡ output.old) × IsErr result }
{
    if output.failed() {
        return Err(Fault::WriteFailed);
    }
    let mut written = 0;
    while written < text.len() {
        written += output.write(&text[written..])?;
    }
    Ok(())
}
