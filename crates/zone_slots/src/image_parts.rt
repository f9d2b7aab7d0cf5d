//! The numbers of an image of all zones: nine for each child, zone after zone.

ghost use Rattle.std.specs.Prelude.{◌≡◌, ◌*◌, IfOk, IfErr};
ghost use Rattle.zone_slots.specs.Layouts.{MayBeLaidOut};
ghost use Rattle.frame_slots.specs.Numbers.{child_count_of};
ghost use Rattle.frame_zones.specs.Zones.{zone_count};
ghost use Rattle.zone_slots.specs.Calls.{image_numbers_by};
ghost use Rattle.zone_slots.specs.ImageParts.{image_numbers_of, numbers_before, AreStarts};

use crate::core_state::CoreState;
use crate::memory::Memory;
use frame_words::{CHILD_FRAMES, CHILD_WORDS, Fault};
use std::alloc::Global;

/// How many numbers an image of the zones has.
pub fn image_numbers(zones: &[(u32, u32)]) -> usize
    requires { MayBeLaidOut zones.now }
    ensures { result ≡ image_numbers_of zones.now }
{
    let mut sum = 0;
    for &(_, frames) in zones {
        sum += numbers_for(frames);
    }
    sum
}

/// Where the numbers of each zone begin. Refused for lack of memory alone.
pub fn image_starts(alloc: Global, zones: &[(u32, u32)]) -> Result<Vec<usize>, Fault>
    requires { MayBeLaidOut zones.now }
    ensures starts { IfOk result (λ starts. AreStarts zones.now starts.items) }
    ensures err { IfErr result (λ e. e ≡ Fault.NoMemory) }
{
    let Ok(mut starts) = Vec::with_capacity(alloc, zones.len()) else {
        return Err(Fault::NoMemory);
    };
    let mut start = 0;
    for &(_, frames) in zones {
        starts.push_reserved(start);
        start += numbers_for(frames);
    }
    Ok(starts)
}

impl CoreState {
    /// How many numbers an image of the core's zones has.
    pub fn image_numbers(&self) -> usize
        ensures { result ≡ image_numbers_by self.now }
    {
        self.shared.image_numbers()
    }
}

impl Memory {
    fn image_numbers(&self) -> usize
        ensures { result ≡ numbers_before self.now.zones (zone_count self.now.zones) }
    {
        let mut sum = 0;
        for frames in &self.zones.frames {
            sum += numbers_for(*frames);
        }
        sum
    }
}

// The numbers of so many frames.
fn numbers_for(frames: u32) -> usize
    ensures { result ≡ 9 * child_count_of frames }
{
    (1 + CHILD_WORDS as usize) * frames.div_ceil(CHILD_FRAMES) as usize
}
