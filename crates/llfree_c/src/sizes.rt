//! The sizes of a memory, as C names them.

ghost use Rattle.std.specs.Prelude.{◌≡◌, IfOk, IfErr};
ghost use Rattle.llfree_c.specs.Openings.{AreMemorySizes, HasNoSizes};

use crate::statuses::BAD_GEOMETRY;
use frame_words::{CHILD_FRAMES, Geometry};

/// The geometry of so many frames, used by so many cores.
pub(crate) fn geometry_of(frames: u32, cores: u32) -> Result<Geometry, u32>
    ensures made { IfOk result (λ g. (g.frames ≡ frames) × (g.cores ≡ cores)) }
    ensures lawful { IfOk result (λ _. AreMemorySizes frames cores) }
    ensures err { IfErr result (HasNoSizes frames cores) }
{
    match Geometry::for_machine(frames.div_ceil(CHILD_FRAMES), cores, frames) {
        Ok(geometry) => Ok(geometry),
        Err(_) => Err(BAD_GEOMETRY),
    }
}
