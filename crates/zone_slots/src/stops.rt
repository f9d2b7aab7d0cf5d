//! The last core of a memory of zones stops it.

ghost use Rattle.std.specs.Prelude.{◌≡◌, ◌⊎◌, IfOk, IfErr};
ghost use Rattle.zone_slots.specs.FrameCalls.{StopsWithout};

use crate::core_state::CoreState;
use frame_words::Fault;
use frame_zones::ZoneImage;
use std::alloc::Global;
use std::fmt::{self, Debug, Formatter, Write};
use std::sync::Arc;
use thiserror::Error;

/// A memory that was not stopped. The core is as it was.
#[derive(Drop, Error)]
#[error("the memory was not stopped: {fault}")]
pub struct StopFault {
    /// `MissingCores` where other cores are open, or `NoMemory`.
    pub fault: Fault,
    pub core: CoreState,
}

impl Debug for StopFault {
    fn fmt<W: Write>(&self, f: &mut Formatter<W>) -> fmt::Result {
        f.debug_struct("StopFault")
            .field("fault", &self.fault)
            .finish_non_exhaustive()
    }
}

impl CoreState {
    /// The words of each zone, in order, from the one core that is left, once the frames that rest with it
    /// have gone back: they fit some views, of which one is that core's own there, and all that it keeps
    /// there is held. That blocks which rest at their slots are held too is by the body, which writes no
    /// word. Refused as `MissingCores` where other cores are open, else for lack of memory (which of the
    /// two is tested); no zone is stopped then.
    pub fn stop(self, alloc: Global) -> Result<Vec<ZoneImage>, StopFault>
        ensures images { IfOk result (λ images. StopsWithout self images.items) }
        ensures same { IfErr result (λ e. e.core ≡ self) }
        ensures refused { IfErr result (λ e.
            (e.fault ≡ Fault.MissingCores) ⊎ (e.fault ≡ Fault.NoMemory)) }
    {
        let Ok(room) = self.shared.zones.make_room(alloc) else {
            return Err(StopFault {
                fault: Fault::NoMemory,
                core: self,
            });
        };
        let CoreState {
            shared,
            mut core,
            slotless,
            last,
            given,
            halves,
            parts,
            back,
            run,
            seen,
            first,
            mut rest,
            apart,
        } = self;
        match Arc::try_unwrap(shared) {
            Ok(shared) => {
                let count = rest.len();
                shared.give_last(first, &mut core, &mut rest, count);
                Ok(shared.zones.stop(core, room))
            }
            Err(shared) => Err(StopFault {
                fault: Fault::MissingCores,
                core: CoreState {
                    shared,
                    core,
                    slotless,
                    last,
                    given,
                    halves,
                    parts,
                    back,
                    run,
                    seen,
                    first,
                    rest,
                    apart,
                },
            }),
        }
    }
}
