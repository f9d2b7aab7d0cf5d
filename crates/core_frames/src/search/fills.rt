//! Takes of several single frames in the tree that a core has reserved.

ghost use Rattle.std.specs.Prelude.{◌≡◌, ◌+◌, ◌≤◌, vec_len, vec_capacity};
ghost use Rattle.core_frames.specs.Bounds.{most_in_fill};
ghost use Rattle.core_frames.specs.Searches.{MayBegin};
ghost use Rattle.core_frames.specs.Fills.{PaysSome, TakesMany};

use super::own_tree::refund;
use frame_core::{Moves, Place};
use frame_words::local_of;
use low_frames::{TRIES, take_some};

/// Takes up to `n` single frames that rest with the core, lays them behind the others, and answers how
/// many.
#[inline(always)]
pub(crate) fn take_some_own<M: Moves>(m: &mut M, core: u32, n: u32, out: &mut Vec<M::Held>) -> u32
    requires may { MayBegin core (M.at m.old) }
    requires room { vec_len out.old + n ≤ vec_capacity out.old }
    ensures takes { TakesMany M.Held.block_of M.is_exact core (most_in_fill result) result n
        out.old.items out.new.items (M.at m.old) (M.at m.new) }
    ensures few { result ≤ n }
    ensures room { vec_capacity out.new ≡ vec_capacity out.old }
    ensures len { vec_len out.new ≡ vec_len out.old + result }
{
    let Some((tree, paid)) = pay_some(m, core, n) else {
        return 0;
    };
    let got = take_some(m, tree, paid, out);
    if got < paid {
        refund(m, core, tree, paid - got);
    }
    got
}

/// Pays up to `n` frames of those that rest with the core, and answers their tree and how many. None
/// where none rest, or all tries were lost.
#[inline(always)]
fn pay_some<M: Moves>(m: &mut M, core: u32, n: u32) -> Option<(u32, u32)>
    requires { MayBegin core (M.at m.old) }
    ensures { PaysSome M.is_exact core n result (M.at m.old) (M.at m.new) }
{
    for _i in 0..TRIES {
        let seen = m.load(Place::Local(core));
        let Some((tree, resting)) = local_of(seen) else {
            return None;
        };
        let paid = resting.min(n);
        if paid == 0 {
            return None;
        }
        if m.local_pay(core, seen, paid) {
            return Some((tree, paid));
        }
    }
    None
}
