//! A reader or a writer that remembers a failed call and is not asked again.

ghost use Rattle.std.specs.Prelude.{◌≡◌, ◌≤◌, ◌<◌, length, true, false, IfOk, IfErr, IsErr};
ghost use Rattle.std.specs.Result.{is_err};
ghost use Rattle.std.specs.Io.KnownBytes.{ReadConsumes, WriteAppends};
ghost use Rattle.frame_text.specs.Devices.{device_of, has_failed};

use frame_words::Fault;
use std::io::{Read, Write};

/// A reader or a writer that remembers whether one of its calls failed.
#[derive(Drop)]
pub struct Watched<T> {
    device: T,
    failed: bool,
}

impl<T> Watched<T> {
    /// Watches a device of which no call has failed yet.
    pub fn new(device: T) -> Watched<T>
        ensures device { device_of result ≡ device }
        ensures fresh { has_failed result ≡ false }
    {
        Watched {
            device,
            failed: false,
        }
    }

    /// Whether a call answered an error, or a write of some bytes took none of them.
    pub fn failed(&self) -> bool
        ensures { result ≡ has_failed self.now }
    {
        self.failed
    }
}

impl<R: Read> Watched<R> {
    /// Reads once. A reader that has failed is not asked again.
    pub fn read(&mut self, buffer: &mut [u8]) -> Result<usize, Fault>
        ensures bound { IfOk result (λ n. n ≤ length buffer.new) }
        ensures bytes { ReadConsumes (R.remaining (device_of self.old))
            (R.remaining (device_of self.new)) result buffer.new }
        ensures noted { has_failed self.new ≡ is_err result }
        ensures fault { IfErr result (λ e. e ≡ Fault.ReadFailed) }
        ensures stays { has_failed self.old ≡ true
            → (self.new ≡ self.old) × (buffer.new ≡ buffer.old) × IsErr result }
    {
        if self.failed {
            return Err(Fault::ReadFailed);
        }
        match self.device.read(buffer) {
            Ok(count) => Ok(count),
            Err(_) => {
                self.failed = true;
                Err(Fault::ReadFailed)
            }
        }
    }
}

impl<W: Write> Watched<W> {
    /// Writes once. A writer that has failed is not asked again.
    pub fn write(&mut self, piece: &[u8]) -> Result<usize, Fault>
        ensures bound { IfOk result (λ n. n ≤ length piece.now) }
        ensures some { IfOk result (λ n. 0 < length piece.now → 0 < n) }
        ensures bytes { WriteAppends (W.contents (device_of self.old))
            (W.contents (device_of self.new)) result piece.now }
        ensures noted { has_failed self.new ≡ is_err result }
        ensures fault { IfErr result (λ e. e ≡ Fault.WriteFailed) }
        ensures stays { has_failed self.old ≡ true → (self.new ≡ self.old) × IsErr result }
    {
        if self.failed {
            return Err(Fault::WriteFailed);
        }
        match self.device.write(piece) {
            Ok(count) if count > 0 || piece.is_empty() => Ok(count),
            _ => {
                self.failed = true;
                Err(Fault::WriteFailed)
            }
        }
    }
}
