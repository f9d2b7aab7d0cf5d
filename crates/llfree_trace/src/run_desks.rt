//! The desks of a run: opened over all cores, and closed.

ghost use Rattle.std.specs.Prelude.{◌≡◌, [], map, replicate, vec_len, IfOk, IfErr};
ghost use Rattle.std.specs.List.{All};
ghost use Rattle.core_frames.specs.Cores.{kept_by, memory_of, IsNewCore};
ghost use Rattle.core_frames.specs.Desks.{list_of, core_of, IsDeskOf};
ghost use Rattle.frame_table.specs.Closing.{IsClosingOf};
ghost use Rattle.llfree_trace.specs.Rounds.{seats_at};

use core_frames::{Allocator, Core, Desk};
use frame_core::Image;
use frame_words::Fault;
use std::alloc::Global;

/// A desk over each core, with an empty list.
pub(crate) fn open_desks(
    alloc: Global,
    allocator: &Allocator,
    cores: Vec<Core>,
) -> Result<Vec<Desk>, Fault>
    requires { All (IsNewCore allocator.now) cores.items }
    ensures desks { IfOk result (λ v. All (IsDeskOf allocator.now) v.items) }
    ensures lists { IfOk result (λ v. map list_of v.items ≡ replicate (vec_len cores) []) }
    ensures cores { IfOk result (λ v. map core_of v.items ≡ cores.items) }
    ensures fault { IfErr result (λ e. e ≡ Fault.NoMemory) }
{
    let _ = allocator;
    let desks = desks_over(alloc, cores)?;
    Ok(desks)
}

// A desk over each core, which keeps nothing.
#[tactic(auto, using(crate::proofs::NewDesks::one_more_desk))]
fn desks_over(alloc: Global, cores: Vec<Core>) -> Result<Vec<Desk>, Fault>
    requires { All (λ c. kept_by c ≡ []) cores.items }
    ensures empty { IfOk result (λ v. All (λ d. list_of d ≡ []) v.items) }
    ensures cores { IfOk result (λ v. map core_of v.items ≡ cores.items) }
    ensures fault { IfErr result (λ e. e ≡ Fault.NoMemory) }
{
    let mut desks = Vec::new(alloc);
    for core in cores {
        desks.push(Desk::new(alloc, core))?;
    }
    Ok(desks)
}

/// The words of the memory, once all desks are finished. Refused only for lack of memory.
pub(crate) fn close_desks(
    alloc: Global,
    allocator: Allocator,
    desks: Vec<Desk>,
) -> Result<Image, Fault>
    requires { All (IsDeskOf allocator) desks.items }
    ensures closing { IfOk result (IsClosingOf (memory_of allocator) (seats_at desks.items)) }
    ensures fault { IfErr result (λ e. e ≡ Fault.NoMemory) }
{
    let cores = finish_all(alloc, desks)?;
    match allocator.close(alloc, cores) {
        Ok(image) => Ok(image),
        Err(_) => Err(Fault::NoMemory),
    }
}

// The cores of all desks.
fn finish_all(alloc: Global, desks: Vec<Desk>) -> Result<Vec<Core>, Fault>
    ensures cores { IfOk result (λ v. v.items ≡ map core_of desks.items) }
    ensures fault { IfErr result (λ e. e ≡ Fault.NoMemory) }
{
    let mut cores = Vec::new(alloc);
    for desk in desks {
        cores.push(desk.finish())?;
    }
    Ok(cores)
}
