//! Threads that are going, the first that was started first.

ghost use Rattle.std.specs.Prelude.{◌≡◌, ◌++◌, ◌∷◌, [], IfErr, OnOk};

use frame_words::Fault;
use std::collections::VecDeque;
use std::thread::{Promise, PromisedHandle, Threads};

/// Threads with what they promised, the first that was started first.
pub(crate) type Going<T, P> = VecDeque<PromisedHandle<T, P>>;

/// Into how many parts the work of a thread is cut, so that what it made is put in its place while the
/// others are going.
pub(crate) const TURNS: usize = 8;

/// Puts a thread behind those that are going. Where there is no room it is joined.
pub(crate) fn keep<T: Drop, P: Promise<T>, R: Threads>(
    rt: &R,
    going: &mut Going<T, P>,
    child: PromisedHandle<T, P>,
) -> Result<(), Fault>
    ensures kept { OnOk result (going.new.items ≡ going.old.items ++ child ∷ []) }
    ensures fault { IfErr result (λ e. e ≡ Fault.NoMemory) }
{
    if let Err(refused) = going.push_back(child) {
        let _ = refused.value.join(rt);
        return Err(Fault::NoMemory);
    }
    Ok(())
}

/// Joins all threads that are going.
pub(crate) fn join_all<T: Drop, P: Promise<T>, R: Threads>(rt: &R, going: &mut Going<T, P>) {
    while let Some(child) = going.pop_front() {
        let _ = child.join(rt);
    }
}
