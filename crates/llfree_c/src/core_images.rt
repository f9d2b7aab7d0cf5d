//! The last core leaves an image of the memory.

ghost use Rattle.std.specs.Prelude.{◌≡◌, ◌≢◌, ◌⊎◌, ◌↔◌, length, IfOk, IfErr};
ghost use Rattle.llfree_c.specs.Status.{ok, no_memory, cores_open};
ghost use Rattle.zone_slots.specs.Calls.{image_numbers_by};
ghost use Rattle.llfree_c.specs.CoreImages.{StopsCore, HasNoStop};
ghost use Rattle.llfree_c.specs.Images.{StaysBehind};

use crate::rebuilt_image::write_images;
use crate::statuses::{CORES_OPEN, NO_MEMORY, NO_ROOM, OK};
use frame_words::Fault;
use std::alloc::Global;
use std::mem::replace;
use zone_slots::{CoreState, StopFault, open_cores, spans_of};

/// Writes the numbers of the memory's image, zone after zone. A core of a fresh memory is behind it then, which stood
/// in its place so that a refusal can put it back.
pub(crate) fn leave_core_image(state: &mut CoreState, heap: Global, numbers: &mut [u64]) -> u32
    ensures left { result ≡ ok → StopsCore state.old numbers.new }
    ensures behind { result ≡ ok
        → StaysBehind (image_numbers_by state.old) numbers.old numbers.new }
    ensures same { result ≢ ok → state.new ≡ state.old }
    ensures refused { result ≢ ok → (numbers.new ≡ numbers.old)
        × HasNoStop state.old (length numbers.old) result }
{
    if numbers.len() < state.image_numbers() {
        return NO_ROOM;
    }
    let other = match spare_core(heap) {
        Ok(other) => other,
        Err(status) => return status,
    };
    match replace(state, other).stop(heap) {
        Ok(images) => {
            write_images(&images, numbers);
            OK
        }
        Err(StopFault { fault, core }) => {
            *state = core;
            stop_status(fault)
        }
    }
}

// Other cores are open just where the fault says so.
fn stop_status(fault: Fault) -> u32
    ensures open { (result ≡ cores_open) ↔ (fault ≡ Fault.MissingCores) }
    ensures known { (result ≡ cores_open) ⊎ (result ≡ no_memory) }
{
    if fault == Fault::MissingCores {
        CORES_OPEN
    } else {
        NO_MEMORY
    }
}

// Of a memory with one frame.
fn spare_core(heap: Global) -> Result<CoreState, u32>
    ensures { IfErr result (λ e. e ≡ no_memory) }
{
    let Ok(spans) = spans_of(heap, 1, &[(0, 1)], &[]) else {
        return Err(NO_MEMORY);
    };
    let Ok(mut cores) = open_cores(heap, 1, &spans) else {
        return Err(NO_MEMORY);
    };
    match cores.pop() {
        Some(core) => Ok(core),
        None => Err(NO_MEMORY),
    }
}
