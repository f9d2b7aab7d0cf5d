//! The page frame allocator's program.
#![tactic(auto)]

use frame_image::Watched;
use llfree_trace::run_program;
use std::alloc::AllocError;
use std::io::IsTerminal;
use std::process::ExitCode;
use std::time::{Clock, Duration};
use std::{env, io, thread};

/// The most seconds between two lines that tell of a run.
const MOST_SECONDS: u64 = 8;

// The program's words, without its name; none where one of them is no text.
fn words(rt: &HostRuntime) -> Result<Vec<String>, AllocError> {
    let mut words = Vec::new(rt.alloc());
    match env::args(rt) {
        Ok(arguments) => {
            for word in arguments.skip(1) {
                words.push(word)?;
            }
        }
        Err(error) => {
            if error.kind() == io::ErrorKind::OutOfMemory {
                return Err(AllocError);
            }
        }
    }
    Ok(words)
}

// Tells on standard error how long a run has lasted, after 1, 2, 4 and 8 seconds and each 8 from then on.
fn tell<R: Clock + Eprint>(rt: &R) {
    let mut seconds = 0u64;
    for _ in 0..u64::MAX {
        let pause = seconds.max(1).min(MOST_SECONDS);
        thread::sleep(rt, Duration::from_secs(pause));
        seconds = seconds.saturating_add(pause);
        let _ = rt.eprintln(format_args!("llfree: running for {seconds} s"));
    }
}

fn main(rt: HostRuntime) -> ExitCode {
    let Ok(words) = words(&rt) else {
        let _ = rt.eprintln("llfree: no memory");
        return ExitCode::from(3);
    };
    // Who types the trace is told nothing; nobody waits for this thread, and a run does without it.
    if rt.stderr().is_terminal() && !rt.stdin().is_terminal() {
        let _ = thread::spawn(&rt, move || tell(&rt));
    }
    let mut input = Watched::new(rt.stdin());
    let mut output = Watched::new(rt.stdout());
    let mut errors = rt.stderr();
    ExitCode::from(run_program(
        &rt,
        rt.alloc(),
        words.as_slice(),
        &mut input,
        &mut output,
        &mut errors,
    ))
}
