//! What one of those who step the words has in flight, and what all others have.

ghost use Rattle.std.specs.Prelude.{◌≡◌, ◌*◌, ◌^◌, ◌<◌, ◌≤◌, vec_len, IfOk, IfErr, replicate};
ghost use Rattle.std.specs.VecDeque.{deque_capacity};
ghost use Rattle.std.specs.List.{All};
ghost use Rattle.plain_moves.specs.Apart.{AreApart};

use frame_model::{Amount, FrameBlock};
use frame_words::{CHILD_FRAMES, CHILD_WORDS, Fault, Geometry};
use std::alloc::Global;
use std::collections::VecDeque;

/// How many strangers come beside a caller.
pub const STRANGERS: u32 = 8;

// While a block leaves, the blocks before and after stand in one queue: at most one a frame each.
pub(crate) const MOST_PIECES: usize = 2 * CHILD_FRAMES as usize;

/// What one seat has in flight.
#[derive(Drop)]
pub struct Party {
    pub(crate) share: u64,
    pub(crate) own: VecDeque<FrameBlock>,
    pub(crate) paid: Option<Amount>,
    pub(crate) charged: Option<Amount>,
    pub(crate) reserving: Option<u32>,
    pub(crate) filled: VecDeque<u32>,
    pub(crate) moves: u64,
    pub(crate) lost: u64,
    pub ghost some: { 0 < share },
    pub ghost counted: { moves < 2 ^ 64 },
    pub ghost room: { 1024 ≤ deque_capacity own },
    pub ghost distinct: { ∥ AreApart filled.items ∥₁ },
}

/// Those who do not step now: what each has in flight, and the blocks that they handed out.
#[derive(Drop)]
pub struct Company {
    pub(crate) parties: Vec<Party>,
    // For each frame, one more than the order of the block that begins there and is out, else 0.
    pub(crate) outs: Vec<u8>,
}

impl Party {
    ghost use Rattle.plain_moves.specs.Plain.{HasRoomToFill, IsFresh};

    // One share, and nothing in flight.
    fn fresh(alloc: Global, geometry: Geometry) -> Result<Party, Fault>
        ensures err { IfErr result (λ e. e ≡ Fault.NoMemory) }
        ensures fresh { IfOk result IsFresh }
        ensures room { IfOk result (HasRoomToFill geometry.children) }
    {
        let own = VecDeque::with_capacity(alloc, MOST_PIECES)?;
        let filled = VecDeque::with_capacity(
            alloc,
            CHILD_WORDS as usize * geometry.children() as usize + 1,
        )?;
        Ok(Party {
            share: 1,
            own,
            paid: None,
            charged: None,
            reserving: None,
            filled,
            moves: 0,
            lost: 0,
        })
    }
}

impl Company {
    ghost use Rattle.plain_moves.specs.Plain.{HasRoomToFill, IsFresh};

    // Eight new parties, of whom none has handed out a block.
    pub(crate) fn fresh(alloc: Global, geometry: Geometry) -> Result<Company, Fault>
        ensures err { IfErr result (λ e. e ≡ Fault.NoMemory) }
        ensures parties { IfOk result (λ c. vec_len c.parties ≡ 8) }
        ensures fresh { IfOk result (λ c. All IsFresh c.parties.items) }
        ensures room { IfOk result (λ c. All (HasRoomToFill geometry.children) c.parties.items) }
        ensures outs { IfOk result (λ c. c.outs.items
            ≡ replicate (512 * geometry.children) 0) }
    {
        let outs = vec![in alloc; 0; CHILD_FRAMES as usize * geometry.children() as usize]?;
        let mut parties = Vec::with_capacity(alloc, STRANGERS as usize)?;
        for _i in 0..STRANGERS {
            parties.push_reserved(Party::fresh(alloc, geometry)?);
        }
        Ok(Company { parties, outs })
    }
}
