//! Each call of the libraries that takes memory, made once, and once more where memory is refused.
#![tactic(auto)]

mod allocators;
mod calls;
mod desks;
mod samples;
mod tables;
mod texts;
mod traces;
mod words;

use calls::Calls;
use frame_words::Fault;
use std::alloc::Global;
use std::io;
use std::sync::Wait;
use std::thread::Threads;

impl Calls {
    fn make_all<R: Threads + Wait>(&mut self, rt: &R, alloc: Global) -> Result<(), Fault> {
        self.make_on_words(alloc)?;
        self.make_on_texts(alloc)?;
        self.make_on_tables(alloc)?;
        self.make_on_allocators(alloc)?;
        self.make_on_desks(alloc)?;
        self.make_on_traces(rt, alloc)
    }
}

fn main(rt: HostRuntime) -> io::Result<()> {
    let mut calls = Calls::new();
    if let Err(fault) = calls.make_all(&rt, rt.alloc()) {
        eprintln!(rt; "{fault}")?;
    }
    println!(rt; "{} calls answered", calls.answered)?;
    eprintln!(rt; "refusals of memory: {}", calls.refused)
}
