//! Moves of blocks between two desks, or inside one.

ghost use Rattle.std.specs.Prelude.{◌≡◌, ◌<◌, vec_len, IfOk, IfErr};
ghost use Rattle.std.specs.List.{All};
ghost use Rattle.core_frames.specs.Desks.{IsDeskOf};
ghost use Rattle.llfree_trace.specs.Rounds.{MovesAt};

use core_frames::{Allocator, Desk, Label};
use frame_core::HeldBlock;
use frame_words::Fault;
use trace_text::Reply;

/// The oldest block under the label goes from a core's desk to the end of another's. Refused only
/// for lack of memory.
pub(crate) fn move_block(
    allocator: &Allocator,
    desks: &mut Vec<Desk>,
    core: u32,
    label: &Label,
    to: u32,
) -> Result<Reply, Fault>
    requires desks { All (IsDeskOf allocator.now) desks.old.items }
    requires from { core < vec_len desks.old }
    requires to { to < vec_len desks.old }
    ensures moves { IfOk result (λ r.
        MovesAt allocator.now core label.now to r desks.old.items desks.new.items) }
    ensures fault { IfErr result (λ e. e ≡ Fault.NoMemory) }
{
    let block = match desks[core as usize].lift(allocator, label) {
        Ok(block) => block,
        Err(refusal) => return Ok(Reply::Refused(refusal)),
    };
    let reply = moved(&block);
    let Ok(()) = desks[to as usize].lay(allocator, label.again(), block) else {
        return Err(Fault::NoMemory);
    };
    Ok(reply)
}

/// The reply that tells which block was moved.
pub(crate) fn moved<B: HeldBlock>(block: &B) -> Reply
    ensures { result ≡ Reply.Moved (B.block_of block.now).frame (B.block_of block.now).order }
{
    Reply::Moved(block.frame(), block.order())
}
