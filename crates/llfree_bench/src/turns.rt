//! What a hand does in a phase.

ghost use Rattle.llfree_bench.specs.Hands.{IsHandOf};

use crate::hand::Hand;
use core_frames::Allocator;
use frame_words::HUGE_ORDER;
use std::alloc::Global;

/// What each hand does.
#[derive(Clone, Copy)]
pub enum Task {
    /// So many takes of an order, each with its give.
    Pairs { order: u8, count: u32 },
    /// So many takes of a frame, each with its give, through a cache of the core.
    Cached { alloc: Global, count: u32 },
    /// So many times: blocks of an order until the list is full, and then their gives.
    Fill { order: u8, times: u64 },
    /// Blocks of random orders, one for each that the list has room for.
    Gather,
    /// So many turns.
    Turns { count: u32 },
    /// Gives, the last block first.
    GiveAll,
}

impl Task {
    pub fn run(self, memory: &Allocator, mut hand: Hand) -> Hand
        requires { IsHandOf memory.now hand }
        ensures { IsHandOf memory.entry.now result }
    {
        hand.refused = 0;
        match self {
            Task::Pairs { order, count } => hand.pairs(memory, order, count),
            Task::Cached { alloc, count } => return hand.cached(alloc, memory, count),
            Task::Fill { order, times } => hand.fill(memory, order, times),
            Task::Gather => hand.gather(memory),
            Task::Turns { count } => hand.turns(memory, count),
            Task::GiveAll => hand.give_all(memory),
        }
        hand
    }
}

impl Hand {
    fn pairs(&mut self, memory: &Allocator, order: u8, count: u32)
        requires { IsHandOf memory.now self.old }
        ensures { IsHandOf memory.now self.new }
    {
        for _i in 0..count {
            match memory.take(&mut self.core, order) {
                Ok(block) => memory.give(&mut self.core, block),
                Err(_) => self.refused = self.refused.wrapping_add(1),
            }
        }
    }

    fn fill(&mut self, memory: &Allocator, order: u8, times: u64)
        requires { IsHandOf memory.now self.old }
        ensures { IsHandOf memory.now self.new }
    {
        for _i in 0..times {
            self.fill_once(memory, order);
            self.give_all(memory);
        }
    }

    fn fill_once(&mut self, memory: &Allocator, order: u8)
        requires { IsHandOf memory.now self.old }
        ensures { IsHandOf memory.now self.new }
    {
        for _i in 0..self.most {
            self.take(memory, order);
        }
    }

    fn gather(&mut self, memory: &Allocator)
        requires { IsHandOf memory.now self.old }
        ensures { IsHandOf memory.now self.new }
    {
        for _i in 0..self.most {
            self.take_any(memory);
        }
    }

    fn turns(&mut self, memory: &Allocator, count: u32)
        requires { IsHandOf memory.now self.old }
        ensures { IsHandOf memory.now self.new }
    {
        for _i in 0..count {
            self.turn(memory);
        }
    }

    fn give_all(&mut self, memory: &Allocator)
        requires { IsHandOf memory.now self.old }
        ensures { IsHandOf memory.now self.new }
    {
        while let Some(block) = self.blocks.pop() {
            memory.give(&mut self.core, block);
        }
    }

    // Where the list is full, one block leaves it and is given. A block of a random order is put last.
    fn turn(&mut self, memory: &Allocator)
        requires { IsHandOf memory.now self.old }
        ensures { IsHandOf memory.now self.new }
    {
        if self.blocks.len() == self.most {
            self.random = next(self.random);
            let place = (self.random >> 32).wrapping_mul(self.most as u64) >> 32;
            self.give_at(memory, place as usize);
        }
        self.take_any(memory);
    }

    // The last block of the list takes the place of the one that leaves.
    fn give_at(&mut self, memory: &Allocator, place: usize)
        requires { IsHandOf memory.now self.old }
        ensures { IsHandOf memory.now self.new }
    {
        if place < self.blocks.len() {
            let block = self.blocks.swap_remove(place);
            memory.give(&mut self.core, block);
        }
    }

    fn take_any(&mut self, memory: &Allocator)
        requires { IsHandOf memory.now self.old }
        ensures { IsHandOf memory.now self.new }
    {
        self.random = next(self.random);
        let order = self.random.trailing_zeros().min(HUGE_ORDER as u32);
        self.take(memory, order as u8);
    }

    // A refused take puts nothing.
    fn take(&mut self, memory: &Allocator, order: u8)
        requires { IsHandOf memory.now self.old }
        ensures { IsHandOf memory.now self.new }
    {
        let Ok(block) = memory.take(&mut self.core, order) else {
            self.refused = self.refused.wrapping_add(1);
            return;
        };
        // There is room for it.
        let _ = self.blocks.push(block);
    }
}

// The random number behind another.
fn next(random: u64) -> u64 {
    let a = random ^ (random << 13);
    let b = a ^ (a >> 7);
    b ^ (b << 17)
}
