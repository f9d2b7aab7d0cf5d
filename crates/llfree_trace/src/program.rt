//! The program: its words, its devices and its status.

ghost use Rattle.std.specs.Prelude.{◌≡◌, ◌≤◌, ◌↔◌, ◌⊎◌, false, map, true, IfErr, IfOk, IsOk};
ghost use Rattle.std.specs.String.{string_bytes};
ghost use Rattle.frame_text.specs.Devices.{device_of, has_failed};
ghost use Rattle.llfree_trace.specs.Program as Spec;
ghost use Rattle.llfree_trace.specs.Program.{AreLawful, IsOfBadSizes, IsOfSizes, Performs};
ghost use Rattle.llfree_trace.specs.Program.{DoesWords, DoesWordsFront, IsNoCommand, IsServed};
ghost use Rattle.llfree_trace.specs.Program.{HasBadSizes, HasBadText};
ghost use Rattle.llfree_trace.specs.RunText.{ExplainsRun, IsRunText};
ghost use Rattle.llfree_trace.specs.Streams.{IsTooLong, Filters};

use crate::command::{Command, Sizes, command_of};
use crate::gate::OpenGate;
use crate::image_streams::{rebuild_over, report_over};
use crate::many_streams::run_many_over;
use crate::streams::{Show, run_over};
use frame_text::Watched;
use frame_words::{Fault, Geometry};
use std::alloc::Global;
use std::io::{Read, Write};
use std::sync::Wait;
use std::thread::Threads;

const USAGE: &str = "usage: llfree run CHILDREN CORES [FRAMES] \
    | llfree image CHILDREN CORES [FRAMES] | llfree rebuild | llfree report";

/// Runs the command that the words name, without the program's name, and answers its status:
/// 0 done, 1 a refusal, 2 usage, 3 where memory or a device failed.
///
/// A refusal's text and the usage text go to `errors`, each with a line feed; that a write to it
/// fails changes no status. With several cores each has a thread of its own in each round, and the
/// call waits for them.
pub fn run_program<Rt: Threads + Wait, I: Read, O: Write, E: Write>(
    rt: &Rt,
    alloc: Global,
    words: &[String],
    input: &mut Watched<I>,
    output: &mut Watched<O>,
    errors: &mut E,
) -> u8
    ensures status { result ≤ 3 }

    // Exactly what the command makes of the input was written.
    ensures done { result ≡ 0 → DoesWords (map string_bytes words.now)
        (I.remaining (device_of input.old)) (O.contents (device_of output.old))
        (O.contents (device_of output.new))
        × (has_failed input.new ≡ false) × (has_failed output.new ≡ false) }

    // The usage text comes for just the words that are no command, and nothing else is done.
    ensures usage { ((result ≡ 2) ↔ IsNoCommand (map string_bytes words.now))
        × (result ≡ 2 → (input.new ≡ input.old) × (output.new ≡ output.old)) }

    // Sizes that no memory has are refused before anything is read.
    ensures bad_sizes { HasBadSizes (map string_bytes words.now)
        → (result ≡ 1) × (input.new ≡ input.old) × (output.new ≡ output.old) }

    // The sizes, a record of what was read or its ranges are refused, and nothing was written.
    ensures refused { result ≡ 1 → (output.new ≡ output.old)
        × (HasBadSizes (map string_bytes words.now)
        ⊎ HasBadText (map string_bytes words.now) (I.remaining (device_of input.old))) }

    // A reader that failed and a text that is too long have status 3.
    ensures reading { IsServed (map string_bytes words.now)
        → (has_failed input.new ≡ true) ⊎ IsTooLong (I.remaining (device_of input.old))
        → result ≡ 3 }

    // Only a command with lawful sizes has it. Then nothing was written, or a front up to a failed
    // write.
    ensures stopped { result ≡ 3 → IsServed (map string_bytes words.now)
        × ((output.new ≡ output.old) ⊎ ((has_failed output.new ≡ true)
        × DoesWordsFront (map string_bytes words.now) (I.remaining (device_of input.old))
        (O.contents (device_of output.old)) (O.contents (device_of output.new)))) }
{
    let Some(command) = command_of(words) else {
        let _ = writeln!(errors, "{USAGE}");
        return 2;
    };
    match perform(rt, alloc, command, input, output) {
        Ok(()) => 0,
        Err(fault) => {
            let _ = writeln!(errors, "llfree: {fault}");
            status_of(fault)
        }
    }
}

// Runs a command.
fn perform<Rt: Threads + Wait, I: Read, O: Write>(
    rt: &Rt,
    alloc: Global,
    command: Command,
    input: &mut Watched<I>,
    output: &mut Watched<O>,
) -> Result<(), Fault>
    ensures { Performs I.remaining O.contents command
        input.old input.new output.old output.new result }
{
    match command {
        Command::Run(sizes, show) => {
            let geometry = geometry_of(sizes)?;
            run_on(rt, alloc, geometry, show, input, output)
        }
        Command::Rebuild => rebuild_over(alloc, input, output),
        Command::Report => report_over(alloc, input, output),
    }
}

// Runs the trace that is read: on one core here, on several with a thread for each.
fn run_on<Rt: Threads + Wait, I: Read, O: Write>(
    rt: &Rt,
    alloc: Global,
    geometry: Geometry,
    show: Show,
    input: &mut Watched<I>,
    output: &mut Watched<O>,
) -> Result<(), Fault>
    ensures { Filters I.remaining O.contents (IsRunText geometry show) (ExplainsRun geometry)
        input.old input.new output.old output.new result }
{
    if geometry.cores() == 1 {
        run_over(alloc, geometry, show, input, output)
    } else {
        run_many_over(rt, alloc, geometry, show, &OpenGate, input, output)
    }
}

// The geometry of these sizes.
fn geometry_of(sizes: Sizes) -> Result<Geometry, Fault>
    ensures sizes { IfOk result (IsOfSizes sizes) }
    ensures lawful { IsOk result ↔ AreLawful sizes }
    ensures fault { IfErr result IsOfBadSizes }
{
    match sizes.frames {
        Some(frames) => Geometry::with_frames(sizes.children, sizes.cores, frames),
        None => Geometry::new(sizes.children, sizes.cores),
    }
}

// The status of a fault.
fn status_of(fault: Fault) -> u8
    ensures value { result ≡ Spec.status_of fault }
    ensures limit { result ≤ 3 }
{
    match fault {
        Fault::NoMemory | Fault::ReadFailed | Fault::WriteFailed => 3,
        _ => 1,
    }
}
