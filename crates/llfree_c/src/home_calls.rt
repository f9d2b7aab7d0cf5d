//! What C calls of the zones of a memory: how many there are, and where takes through a core begin.

ghost use Rattle.std.specs.Prelude.{◌≡◌, ◌⊎◌, false};
ghost use Rattle.zone_slots.specs.Homes.{MovesHomeTo};
ghost use Rattle.llfree_c.specs.Homes.{zones_behind, home_behind, HasNoZoneBehind};
ghost use Rattle.llfree_c.specs.SeenCores.{OnCores};
ghost use Rattle.llfree_c.specs.Status.{ok, closed, bad_range};

use crate::core_handle::CoreHandle;
use crate::statuses::{BAD_RANGE, CLOSED, OK};
use std::alloc::Global;

/// How many zones the memory behind the handle has; 0 where nothing is.
#[unsafe(no_mangle)]
pub extern "C" fn llfree_zones(handle: &mut CoreHandle, heap: Global) -> u32
    ensures zones { result ≡ zones_behind handle.old.state.value }
    ensures same { handle.new.state.value ≡ handle.old.state.value }
{
    let Some(state) = handle.take_out(heap) else {
        return 0;
    };
    let zones = state.zones();
    *handle = CoreHandle::of(state);
    zones
}

/// The home zone of the core, where its takes begin; 0 where nothing is behind the handle.
#[unsafe(no_mangle)]
pub extern "C" fn llfree_home(handle: &mut CoreHandle, heap: Global) -> u32
    ensures home { result ≡ home_behind handle.old.state.value }
    ensures same { handle.new.state.value ≡ handle.old.state.value }
{
    let Some(state) = handle.take_out(heap) else {
        return 0;
    };
    let home = state.home();
    *handle = CoreHandle::of(state);
    home
}

/// Takes of every order through the core begin in the zone of this number from now on.
#[unsafe(no_mangle)]
pub extern "C" fn llfree_set_home(handle: &mut CoreHandle, heap: Global, zone: u32) -> u32
    ensures set { result ≡ ok
        → OnCores (MovesHomeTo zone) handle.old.state.value handle.new.state.value }
    ensures refused { result ≡ bad_range
        → HasNoZoneBehind zone handle.old.state.value handle.new.state.value }
    ensures closed { result ≡ closed → (handle.old.live ≡ false) × (handle.new ≡ handle.old) }
    ensures known { (result ≡ ok) ⊎ (result ≡ closed) ⊎ (result ≡ bad_range) }
{
    let Some(mut state) = handle.take_out(heap) else {
        return CLOSED;
    };
    let status = match state.set_home(zone) {
        Ok(()) => OK,
        Err(_) => BAD_RANGE,
    };
    *handle = CoreHandle::of(state);
    status
}
