//! Where the first zone lies, as each core knows it.

ghost use Rattle.std.specs.Prelude.{◌≡◌, ◌+◌, ◌<◌, IfSome};

/// The first frame of the first zone, and how many frames it has. Each core has it beside its own parts:
/// so the zone of these frames, which are all that a memory of one zone has, is found without a look at the
/// lists of all zones.
#[derive(Clone, Copy)]
pub struct FirstZone {
    pub(crate) first: u32,
    pub(crate) frames: u32,
}

impl FirstZone {
    /// The number of the frame in the first zone, where that has it.
    #[inline(always)]
    pub(crate) fn number_of(self, frame: u32) -> Option<u32>
        ensures { IfSome result (λ local. (self.first + local ≡ frame) × (local < self.frames)) }
    {
        if frame < self.first {
            return None;
        }
        let local = frame - self.first;
        if local >= self.frames {
            return None;
        }
        Some(local)
    }
}
