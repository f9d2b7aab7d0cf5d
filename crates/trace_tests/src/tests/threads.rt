//! Traces on several cores, each on a thread of its own in each round.

use super::*;
use std::sync::atomic::{AtomicU64, Ordering};

const MOST_TURNS: u32 = 1_000_000_000;

const TAKES_AND_GIVES: u32 = 1_000;

// Those of each core, with the take of the block that is moved, and its give.
const REQUESTS: u64 = 2_001;

// The numbers of the records of each core's requests, added up.
const NUMBERS: (u64, u64) = (4_006_001, 4_012_004);

// What a core's calls told: whether one came, the number of the last request, all numbers added up, how many requests
// began and ended, and how many calls told another number than the one that comes next.
#[derive(Drop)]
struct Told {
    came: AtomicU64,
    last: AtomicU64,
    sum: AtomicU64,
    begun: AtomicU64,
    ended: AtomicU64,
    wrong: AtomicU64,
}

impl Told {
    fn nothing() -> Told {
        Told {
            came: AtomicU64::new(0),
            last: AtomicU64::new(0),
            sum: AtomicU64::new(0),
            begun: AtomicU64::new(0),
            ended: AtomicU64::new(0),
            wrong: AtomicU64::new(0),
        }
    }

    // Requests begin by rising number.
    fn begin(&self, line: u64) {
        if line <= self.last.swap(line, Ordering::SeqCst) {
            self.wrong.fetch_add(1, Ordering::SeqCst);
        }
        self.sum.fetch_add(line, Ordering::SeqCst);
        self.begun.fetch_add(1, Ordering::SeqCst);
    }

    // The one that ends is the last that began.
    fn end(&self, line: u64) {
        if line != self.last.load(Ordering::SeqCst) {
            self.wrong.fetch_add(1, Ordering::SeqCst);
        }
        self.ended.fetch_add(1, Ordering::SeqCst);
    }

    fn is_right(&self, sum: u64) -> bool {
        self.wrong.load(Ordering::SeqCst) == 0
            && self.sum.load(Ordering::SeqCst) == sum
            && self.begun.load(Ordering::SeqCst) == REQUESTS
            && self.ended.load(Ordering::SeqCst) == REQUESTS
    }
}

// A gate that keeps what its calls tell of two cores, and in which the first request of each from a record on waits
// until the other core's came too.
#[derive(Drop)]
struct Meeting {
    from: u32,
    first: Told,
    second: Told,
    missed: AtomicU64,
}

impl Meeting {
    // What is told of this core, and of the other one.
    fn told(&self, core: u32) -> Option<(&Told, &Told)> {
        match core {
            0 => Some((&self.first, &self.second)),
            1 => Some((&self.second, &self.first)),
            _ => None,
        }
    }
}

impl Gate for Meeting {
    fn before(&self, core: u32, line: u32) {
        let Some((own, other)) = self.told(core) else {
            self.missed.store(1, Ordering::SeqCst);
            return;
        };
        own.begin(u64::from(line));
        if line < self.from || own.came.swap(1, Ordering::SeqCst) == 1 {
            return;
        }
        for _turn in 0..MOST_TURNS {
            if other.came.load(Ordering::SeqCst) == 1 {
                return;
            }
        }
        self.missed.store(1, Ordering::SeqCst);
    }

    fn after(&self, core: u32, line: u32) {
        match self.told(core) {
            Some((own, _)) => own.end(u64::from(line)),
            None => self.missed.store(1, Ordering::SeqCst),
        }
    }
}

// Two cores that take and give side by side, after a block moved from one to the other.
fn busy_text(alloc: Global) -> Result<Vec<u8>, AllocError> {
    let mut text = Vec::new(alloc);
    text.extend_from_slice(b"0,take,m,0\n,round,,\n0,move,m,1\n")?;
    for _i in 0..TAKES_AND_GIVES {
        text.extend_from_slice(b"0,take,x,0\n1,take,x,0\n0,give,x,\n1,give,x,\n")?;
    }
    text.extend_from_slice(b"1,give,m,\n")?;
    Ok(text)
}

// Checks a run of two busy cores.
fn is_busy<Rt: Threads + Wait + Abort, G: Gate>(
    rt: &Rt,
    alloc: Global,
    gate: &G,
) -> Result<(), Fault> {
    let text = busy_text(alloc)?;
    let geometry = Geometry::new(8, 2)?;
    let shown = answers(rt, alloc, geometry, gate, text.as_slice())?;
    assert!(rt;
        shown
            .as_slice()
            .starts_with(b"1,0,Taken,0,0\n3,0,Moved,0,0\n")
    );
    assert!(rt; shown.as_slice().ends_with(b"\nend,,Closed,0,4096\n"));
    Ok(())
}

#[test]
fn the_requests_of_two_cores_overlap_and_pass_the_gate(rt: HostRuntime) -> Result<(), Fail> {
    let gate = Meeting {
        from: 4,
        first: Told::nothing(),
        second: Told::nothing(),
        missed: AtomicU64::new(0),
    };
    is_busy(&rt, rt.alloc(), &gate)?;
    assert!(rt; gate.missed.load(Ordering::SeqCst) == 0);
    assert!(rt; gate.first.is_right(NUMBERS.0) && gate.second.is_right(NUMBERS.1));
    Ok(())
}
