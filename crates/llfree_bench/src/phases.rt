//! Phases of work that all hands do at the same time.

ghost use Rattle.std.specs.Prelude.{◌<◌, ◌≡◌, ℕ, IfOk, vec_len, slice_index_or};
ghost use Rattle.std.specs.List.{All};
ghost use Rattle.core_frames.specs.Cores.{IsCoreOf};
ghost use Rattle.llfree_bench.specs.Hands.{IsHandOf};
ghost use Rattle.llfree_bench.specs.declared.hand.Hand.{Hand as AHand};

use crate::hand::Hand;
use crate::turns::Task;
use core_frames::{Allocator, Core};
use std::alloc::{AllocError, Global};
use std::rt::Clock;
use std::thread::Threads;
use std::time::{Duration, Instant};
use std::{io, thread};

/// The first random number of core 0.
const SEED: u64 = 0x9e37_79b9_7f4a_7c15;

/// How long a phase took, and how many takes of all threads were refused in it.
#[derive(Clone, Copy)]
pub struct Figure {
    pub spent: Duration,
    pub refused: u64,
}

pub fn no_memory() -> io::Error {
    io::Error::from(io::ErrorKind::OutOfMemory)
}

/// A hand for each core, in order, with room for so many blocks.
pub fn hands_of(
    alloc: Global,
    memory: &Allocator,
    cores: Vec<Core>,
    most: usize,
) -> Result<Vec<Hand>, AllocError>
    requires { All (IsCoreOf memory.now) cores.items }
    ensures { IfOk result (λ hands. All (IsHandOf memory.now) hands.items) }
{
    let _ = memory;
    let mut hands = Vec::new(alloc);
    for core in cores {
        let place = u64::from(core.number()).wrapping_add(1);
        hands.push(Hand {
            core,
            blocks: Vec::with_capacity(alloc, most)?,
            random: place.wrapping_mul(SEED),
            most,
            refused: 0,
        })?;
    }
    Ok(hands)
}

/// All hands work at the same time, each in a thread, the last one in this.
pub fn phase<R: Threads + Clock + Sync>(
    rt: &R,
    memory: &Allocator,
    hands: Vec<Hand>,
    task: Task,
) -> io::Result<(Vec<Hand>, Figure)>
    requires { All (IsHandOf memory.now) hands.items }
    ensures { IfOk result (λ r. All (IsHandOf memory.now) r.0.items) }
{
    let start = Instant::now(rt)?;
    let worked = at_once(rt, memory, hands, task);
    let spent = start.elapsed(rt)?;
    let Ok(hands) = worked else {
        return Err(no_memory());
    };
    let refused = refused_in(&hands);
    Ok((hands, Figure { spent, refused }))
}

fn at_once<R: Threads + Sync>(
    rt: &R,
    memory: &Allocator,
    hands: Vec<Hand>,
    task: Task,
) -> Result<Vec<Hand>, AllocError>
    requires { All (IsHandOf memory.now) hands.items }
    ensures count { IfOk result (λ all. vec_len all ≡ vec_len hands) }
    ensures hands { IfOk result (λ all. (i : ℕ) (d : AHand) → i < vec_len hands
        → IsHandOf memory.entry.now (slice_index_or all.items i d)) }
{
    thread::map_vec(
        rt,
        hands,
        &|hand: Hand| -> Hand
            requires { IsHandOf memory.now hand }
            ensures { IsHandOf memory.entry.now result }
        { task.run(memory, hand) },
    )
}

fn refused_in(hands: &[Hand]) -> u64 {
    let mut refused = 0u64;
    for hand in hands {
        refused = refused.saturating_add(hand.refused);
    }
    refused
}

/// The cores of hands that gave all their blocks.
pub fn cores_of(
    alloc: Global,
    memory: &Allocator,
    hands: Vec<Hand>,
) -> Result<Vec<Core>, AllocError>
    requires { All (IsHandOf memory.now) hands.items }
    ensures { IfOk result (λ cores. All (IsCoreOf memory.now) cores.items) }
{
    let _ = memory;
    let mut cores = Vec::new(alloc);
    for hand in hands {
        let Hand { core, .. } = hand;
        cores.push(core)?;
    }
    Ok(cores)
}
