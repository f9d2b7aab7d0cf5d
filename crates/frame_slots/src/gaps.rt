//! The places of a list at which no block has its slot.

ghost use Rattle.std.specs.Prelude.{◌≡◌, ℕ, ◌*◌, ◌<◌, ◌≤◌, ◌↔◌, IsTrue, IfOk, IfErr, length, slice_index};
ghost use Rattle.frame_slots.specs.SlotLists.{gap_bits, IsGap};

use frame_words::Fault;
use std::alloc::Global;

const WORD_PLACES: usize = 32;

/// A bit for each place, set where it is a gap. A word that is not there has none.
#[derive(Drop)]
pub(crate) struct Gaps {
    // Not aligned as the allocator's words are, by which a heap tells these.
    pub(crate) words: Vec<u32>,
    // For how many words room is made once there is a gap.
    room: usize,
}

impl Gaps {
    /// None, among so many places.
    pub(crate) fn none(alloc: Global, places: usize) -> Gaps {
        Gaps {
            words: Vec::new(alloc),
            room: places.div_ceil(WORD_PLACES),
        }
    }

    /// Is it a gap?
    #[inline(always)]
    pub(crate) fn has(&self, place: usize) -> bool
        ensures { IsTrue result ↔ IsGap self.now.words.items place }
    {
        let word = self.word(place / WORD_PLACES);
        (word >> (place % WORD_PLACES) as u32) & 1 == 1
    }

    #[inline(always)]
    fn word(&self, at: usize) -> u32
        ensures { result ≡ slice_index self.now.words.items at }
    {
        if at < self.words.len() {
            self.words[at]
        } else {
            0
        }
    }

    /// The place is a gap.
    pub(crate) fn add(&mut self, place: usize) -> Result<(), Fault>
        ensures keeps { IfOk result (λ _. (x : ℕ)
            → IsGap self.old.words.items x → IsGap self.new.words.items x) }
        ensures added { IfOk result (λ _. IsGap self.new.words.items place) }
        ensures err { IfErr result (λ e. e ≡ Fault.NoMemory) }
    {
        self.make_room()?;
        self.reach(place / WORD_PLACES + 1)?;
        self.set(place);
        Ok(())
    }

    fn make_room(&mut self) -> Result<(), Fault>
        ensures same { self.new.words.items ≡ self.old.words.items }
        ensures err { IfErr result (λ e. e ≡ Fault.NoMemory) }
    {
        if !self.words.is_empty() {
            return Ok(());
        }
        let Ok(()) = self.words.reserve(self.room) else {
            return Err(Fault::NoMemory);
        };
        Ok(())
    }

    // There are so many words; no place became a gap.
    fn reach(&mut self, words: usize) -> Result<(), Fault>
        ensures there { IfOk result (λ _. words ≤ length self.new.words.items) }
        ensures same { IfOk result (λ _. (k : ℕ)
            → slice_index self.new.words.items k ≡ slice_index self.old.words.items k) }
        ensures err { IfErr result (λ e. e ≡ Fault.NoMemory) }
    {
        for _word in self.words.len()..words {
            let Ok(()) = self.words.push(0) else {
                return Err(Fault::NoMemory);
            };
        }
        Ok(())
    }

    fn set(&mut self, place: usize)
        requires { place < gap_bits * length self.old.words.items }
        ensures keeps { (x : ℕ) → IsGap self.old.words.items x → IsGap self.new.words.items x }
        ensures added { IsGap self.new.words.items place }
    {
        self.words[place / WORD_PLACES] |= 1 << (place % WORD_PLACES) as u32;
    }
}
