use frame_image::{Watched, read_all, write_out};
use frame_words::Fault;
use std::alloc::Global;
use std::cell::Cell;
use std::io::{Error, ErrorKind, Read, Result as IoResult, Write};
use std::test::Fail;

const TAKES: &[u8] = b"0,take,a,0\n0,take,b,3\n0,take,c,0\n";

// What a device does at the call at which it fails.
#[derive(Clone, Copy)]
enum Failing {
    Error(ErrorKind),
    TakesNone,
}

// A reader of a byte at a time that fails at a call, and counts its calls.
#[derive(Drop)]
struct SlowReader<'a> {
    left: &'a [u8],
    fails_at: u32,
    kind: ErrorKind,
    calls: &'a Cell<u32>,
}

impl Read for SlowReader<'_> {
    fn read(&mut self, buffer: &mut [u8]) -> IoResult<usize> {
        let call = self.calls.get();
        self.calls.set(call.saturating_add(1));
        if call == self.fails_at {
            return Err(Error::from(self.kind));
        }
        if buffer.is_empty() {
            return Ok(0);
        }
        self.left.read(&mut buffer[..1])
    }
}

// A writer of three bytes at a time that fails at a call, and counts its calls.
#[derive(Drop)]
struct SlowWriter<'a> {
    taken: &'a mut Vec<u8>,
    fails_at: u32,
    how: Failing,
    calls: &'a Cell<u32>,
}

impl Write for SlowWriter<'_> {
    fn write(&mut self, piece: &[u8]) -> IoResult<usize> {
        let call = self.calls.get();
        self.calls.set(call.saturating_add(1));
        if call == self.fails_at {
            return match self.how {
                Failing::Error(kind) => Err(Error::from(kind)),
                Failing::TakesNone => Ok(0),
            };
        }
        let count = piece.len().min(3);
        self.taken.extend_from_slice(&piece[..count])?;
        Ok(count)
    }

    fn flush(&mut self) -> IoResult<()> {
        Ok(())
    }
}

// Whether reading fails, and the reader is known to have failed then.
fn cannot_be_read<R: Read>(alloc: Global, input: &mut Watched<R>) -> bool {
    matches!(read_all(alloc, input), Err(Fault::ReadFailed)) && input.failed()
}

// Whether a whole text can't be written, nor a byte then, and the writer is known to have failed.
fn cannot_be_written<W: Write>(output: &mut Watched<W>) -> bool {
    write_out(output, TAKES) == Err(Fault::WriteFailed)
        && output.failed()
        && output.write(b"x") == Err(Fault::WriteFailed)
}

#[test]
fn a_failed_reader_is_not_asked_again(rt: HostRuntime) -> Result<(), Fail> {
    for kind in [
        ErrorKind::Interrupted,
        ErrorKind::WouldBlock,
        ErrorKind::Other,
    ] {
        for fails_at in 0..34u32 {
            let calls = Cell::new(0);
            let reader = SlowReader {
                left: TAKES,
                fails_at,
                kind,
                calls: &calls,
            };
            let mut input = Watched::new(reader);
            for _ in 0..2 {
                assert!(rt; cannot_be_read(rt.alloc(), &mut input));
                assert!(rt; calls.get() == fails_at + 1);
            }
            assert!(rt; matches!(input.read(&mut [0u8; 4]), Err(Fault::ReadFailed)));
            assert!(rt; calls.get() == fails_at + 1);
        }
    }
    Ok(())
}

#[test]
fn a_failed_writer_is_not_asked_again(rt: HostRuntime) -> Result<(), Fail> {
    for how in [
        Failing::Error(ErrorKind::Interrupted),
        Failing::Error(ErrorKind::Other),
        Failing::TakesNone,
    ] {
        for fails_at in 0..11u32 {
            let calls = Cell::new(0);
            let mut taken = Vec::new(rt.alloc());
            {
                let writer = SlowWriter {
                    taken: &mut taken,
                    fails_at,
                    how,
                    calls: &calls,
                };
                let mut output = Watched::new(writer);
                for _ in 0..2 {
                    assert!(rt; cannot_be_written(&mut output));
                }
            }
            assert!(rt; calls.get() == fails_at + 1);
            let front = (3 * fails_at as usize).min(TAKES.len());
            assert!(rt; taken.as_slice() == &TAKES[..front]);
        }
    }
    Ok(())
}
