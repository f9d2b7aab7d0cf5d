//! All shares of a memory in one core, and apart again.

ghost use Rattle.std.specs.Prelude.{◌≡◌, ◌<◌, ◌≤◌, [], IfOk, IfErr, map, vec_len, vec_capacity};
ghost use Rattle.std.specs.List.{All};
ghost use Rattle.frame_table.specs.Closing.{lent_through, kept_through, IsGathered};
ghost use Rattle.core_frames.specs.Cores.{memory_of, seat_of, view_in, kept_by, lent_by};
ghost use Rattle.core_frames.specs.Cores.{AreNumbered, StepsAlone, IsSureOf, IsCoreOf};

use crate::shared::allocator::{Allocator, Core};
use frame_table::Seated;

impl Allocator {
    /// One core of all, with all that they keep and lend: nobody else steps then, and what it finds is
    /// exact. With it the emptied list, in which a later `scatter` puts the cores. Where a core is
    /// missing, all are handed back. No memory is needed.
    pub fn gather(&self, mut cores: Vec<Core>) -> Result<(Core, Vec<Core>), Vec<Core>>
        requires { All (IsCoreOf self.now) cores.items }
        ensures core { IfOk result (λ r. IsCoreOf self.now r.0) }
        ensures sure { IfOk result (λ r. IsSureOf self.now r.0) }
        ensures gathered { IfOk result (λ r. IsGathered (map seat_of cores.items) (view_in r.0)) }
        ensures room { IfOk result (λ r. (r.1.items ≡ [])
            × ((memory_of self.now).cores ≤ vec_capacity r.1)) }
        ensures refused { IfErr result (λ same. (same ≡ cores)
            × (vec_len cores < (memory_of self.now).cores)) }
    {
        if cores.len() < self.table.cores() as usize {
            return Err(cores);
        }
        let Some(last) = cores.pop() else {
            unreachable!()
        };
        let Core { mut seat, habit } = last;
        while let Some(next) = cores.pop() {
            seat.gather(&self.table, next.into_seat());
        }
        seat.learn(&self.table);
        Ok((Core { seat, habit }, cores))
    }

    /// The cores of the memory again, in order, where one core has all shares. The last keeps and lends
    /// what that one did, and the others nothing. No memory is needed.
    pub fn scatter(&self, core: Core, mut cores: Vec<Core>) -> Vec<Core>
        requires core { IsCoreOf self.now core }
        requires alone { StepsAlone self.now core }
        requires room { (cores.items ≡ []) × ((memory_of self.now).cores ≤ vec_capacity cores) }
        ensures count { vec_len result ≡ (memory_of self.now).cores }
        ensures cores { All (IsCoreOf self.now) result.items }
        ensures numbers { AreNumbered result.items }
        ensures lent { lent_through (map seat_of result.items) ≡ lent_by core }
        ensures kept { kept_through (map seat_of result.items) ≡ kept_by core }
    {
        let Core { mut seat, habit } = core;
        let last = self.table.cores() - 1;
        for number in 0..last {
            cores.push_reserved(Core {
                seat: seat.part(&self.table),
                habit: habit.for_core(number),
            });
        }
        cores.push_reserved(Core {
            seat,
            habit: habit.for_core(last),
        });
        cores
    }
}
