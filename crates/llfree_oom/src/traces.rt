//! Traces, and the program that runs them.

ghost use Rattle.std.specs.Prelude.{◌≤◌, IfOk};
ghost use Rattle.trace_text.specs.Trace.{core_count};

use crate::calls::{Calls, twice};
use crate::samples::{
    MOVES, MOVES_ANSWERED, REBUILT, REPORT, SHARED, SMALL, STOPPED, TAKES, TAKES_ANSWERED,
};
use frame_image::{Watched, held_frames};
use frame_words::{Fault, Geometry};
use llfree_trace::{
    OpenGate, Show, Trace, parse_trace, rebuild_over, report_over, run_many_over, run_one,
    run_over, run_program, run_trace,
};
use std::alloc::Global;
use std::sync::Wait;
use std::thread::Threads;

// Room for all that a call writes here.
const ROOM: usize = 4096;

const NO_MEMORY: &[u8] = b"llfree: no memory\n";

fn parsed(alloc: Global, geometry: &Geometry, text: &[u8]) -> Result<Trace, Fault>
    ensures { IfOk result (λ trace. core_count trace ≤ geometry.now.cores) }
{
    parse_trace(alloc, geometry, text)
}

impl Calls {
    fn read_trace(&mut self, alloc: Global) -> Result<(), Fault> {
        let trace = twice!(self, parse_trace(alloc, &SMALL, TAKES))?;
        self.look(trace.lines().len() == 3 && trace.cores() == 1);
        Ok(())
    }

    fn run_on_one_core(&mut self, alloc: Global) -> Result<(), Fault> {
        let trace = twice!(self, parsed(alloc, &SMALL, TAKES))?;
        let outcome = twice!(self, run_one(alloc, SMALL, &trace))?;
        self.look(outcome.answers.len() == 3 && held_frames(&outcome.image) == 10);
        Ok(())
    }

    fn run_on_threads<R: Threads + Wait>(&mut self, rt: &R, alloc: Global) -> Result<(), Fault> {
        let trace = twice!(self, parsed(alloc, &SHARED, MOVES))?;
        let outcome = twice!(self, run_trace(rt, alloc, SHARED, &trace, &OpenGate))?;
        self.look(outcome.answers.len() == 3 && held_frames(&outcome.image) == 0);
        Ok(())
    }

    fn run_over_one_core(&mut self, alloc: Global) -> Result<(), Fault> {
        let mut written = self.room(alloc, ROOM)?;
        {
            let mut output = Watched::new(&mut written);
            twice!(
                self,
                run_over(
                    alloc,
                    SMALL,
                    Show::Answers,
                    &mut Watched::new(TAKES),
                    &mut output
                )
            )?;
        }
        self.look(written.as_slice() == TAKES_ANSWERED);
        Ok(())
    }

    fn run_over_threads<R: Threads + Wait>(&mut self, rt: &R, alloc: Global) -> Result<(), Fault> {
        let mut written = self.room(alloc, ROOM)?;
        {
            let mut output = Watched::new(&mut written);
            twice!(
                self,
                run_many_over(
                    rt,
                    alloc,
                    SHARED,
                    Show::Answers,
                    &OpenGate,
                    &mut Watched::new(MOVES),
                    &mut output
                )
            )?;
        }
        self.look(written.as_slice() == MOVES_ANSWERED);
        Ok(())
    }

    fn rebuild_text(&mut self, alloc: Global) -> Result<(), Fault> {
        let mut written = self.room(alloc, ROOM)?;
        {
            let mut output = Watched::new(&mut written);
            twice!(
                self,
                rebuild_over(alloc, &mut Watched::new(STOPPED), &mut output)
            )?;
        }
        self.look(written.as_slice() == REBUILT);
        Ok(())
    }

    fn report_text(&mut self, alloc: Global) -> Result<(), Fault> {
        let mut written = self.room(alloc, ROOM)?;
        {
            let mut output = Watched::new(&mut written);
            twice!(
                self,
                report_over(alloc, &mut Watched::new(STOPPED), &mut output)
            )?;
        }
        self.look(written.as_slice() == REPORT);
        Ok(())
    }

    fn word(&mut self, alloc: Global, text: &str) -> Result<String, Fault> {
        match String::from_str(alloc, text) {
            Ok(word) => Ok(word),
            Err(_) => {
                self.refuse();
                Ok(String::from_str(alloc, text)?)
            }
        }
    }
}

// The status of a run of the program on two cores.
fn status<R: Threads + Wait>(
    rt: &R,
    alloc: Global,
    words: &[String],
    written: &mut Vec<u8>,
    errors: &mut Vec<u8>,
) -> u8 {
    run_program(
        rt,
        alloc,
        words,
        &mut Watched::new(MOVES),
        &mut Watched::new(written),
        errors,
    )
}

impl Calls {
    fn run_the_program<R: Threads + Wait>(&mut self, rt: &R, alloc: Global) -> Result<(), Fault> {
        let mut words = self.room(alloc, 3)?;
        for text in ["run", "8", "2"] {
            words.push(self.word(alloc, text)?)?;
        }
        let mut written = self.room(alloc, ROOM)?;
        let mut errors = self.room(alloc, ROOM)?;
        let mut ended = status(rt, alloc, &words, &mut written, &mut errors);
        if ended == 3 && errors.as_slice() == NO_MEMORY {
            self.refuse();
            ended = status(rt, alloc, &words, &mut written, &mut errors);
        }
        self.look(ended == 0 && written.as_slice() == MOVES_ANSWERED);
        Ok(())
    }

    /// Each call on traces, once.
    pub fn make_on_traces<R: Threads + Wait>(
        &mut self,
        rt: &R,
        alloc: Global,
    ) -> Result<(), Fault> {
        self.read_trace(alloc)?;
        self.run_on_one_core(alloc)?;
        self.run_on_threads(rt, alloc)?;
        self.run_over_one_core(alloc)?;
        self.run_over_threads(rt, alloc)?;
        self.rebuild_text(alloc)?;
        self.report_text(alloc)?;
        self.run_the_program(rt, alloc)
    }
}
