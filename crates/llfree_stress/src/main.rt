//! Threads take and give blocks of one memory for some seconds, and stamp each frame that they hold:
//! a frame in two hands would show another stamp. Its words are the seconds, the children and the
//! threads; with others it prints nothing.
#![tactic(auto)]

ghost use Rattle.std.specs.Prelude.{◌≤◌};

mod held;
mod stamps;

use frame_words::Geometry;
use stamps::{Plan, trial};
use std::{env, io};

// The seconds, the children and the threads.
fn plan_of(rt: &HostRuntime) -> io::Result<Option<Plan>> {
    let mut numbers = [0u32; 3];
    let mut words = env::args(rt)?.skip(1);
    for number in &mut numbers {
        let Some(word) = words.next() else {
            return Ok(None);
        };
        let Ok(read) = word.as_str().parse::<u32>() else {
            return Ok(None);
        };
        *number = read;
    }
    let [seconds, children, threads] = numbers;
    let Ok(geometry) = Geometry::new(children, threads) else {
        return Ok(None);
    };
    Ok(Some(Plan { seconds, geometry }))
}

fn main(rt: HostRuntime) -> io::Result<()> {
    let Some(plan) = plan_of(&rt)? else {
        return Ok(());
    };
    let found = trial(&rt, rt.alloc(), plan)?;
    println!(rt; "{} frames in two hands", found.wrong)?;
    println!(rt; "{} frames held by nobody", found.lost)?;
    eprintln!(rt; "{} takes, {} of them refused", found.takes, found.refused)
}
