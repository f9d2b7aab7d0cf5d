//! The moves over words that nobody else steps.

mod amounts;
mod blocks;
mod checks;
mod contents;
mod moves;
mod others;
mod party;
mod strangers;
mod tries;

ghost use Rattle.std.specs.Prelude.{◌≡◌, ◌*◌, ◌^◌, ◌<◌, ◌≤◌, true, false, length, vec_len, IfOk, IfErr};
ghost use Rattle.std.specs.List.{All};
ghost use Rattle.std.specs.VecDeque.{deque_capacity};
ghost use Rattle.frame_model.specs.Key.{key_of, frame_count};
ghost use Rattle.frame_core.specs.Image.{key_in, IsImage};
ghost use Rattle.frame_model.specs.Openings.{IsSealedOpening};
ghost use Rattle.frame_model.specs.Rebuilt.{IsRebuilt};
ghost use Rattle.frame_model.specs.View.{idle};
ghost use Rattle.frame_model.specs.Words.{word_count};
ghost use Rattle.plain_moves.specs.Apart.{AreApart};
ghost use Rattle.plain_moves.specs.Plain.{
  plain_key,
  plain_view,
  HasRoomToFill,
  Agrees,
  FitsIdle,
  FitsReopened,
  Begins,
};

use frame_core::{Image, Moves};
use frame_model::{Amount, FrameBlock};
use frame_words::{CHILD_FRAMES, CHILD_WORDS, Fault, Geometry};
pub use party::STRANGERS;
use party::{Company, MOST_PIECES};
use std::alloc::Global;
use std::collections::VecDeque;

/// The words of a table, what the one who steps has in flight, and what all others have, who wait.
#[derive(Drop)]
pub struct PlainMoves {
    geometry: Geometry,
    sealed: bool,
    words: Vec<u64>,
    // For each frame, one more than the order of the block that begins there and is out, else 0.
    outs: Vec<u8>,
    // What the one who steps has in flight.
    share: u64,
    own: VecDeque<FrameBlock>,
    paid: Option<Amount>,
    charged: Option<Amount>,
    reserving: Option<u32>,
    filled: VecDeque<u32>,
    moves: u64,
    lost: u64,
    // Those who do not step now.
    them: Company,
    pub ghost agrees: { ∥ Agrees (plain_key geometry sealed) them words.items outs.items
        (plain_view (plain_key geometry sealed) share outs.items paid charged reserving own.items
        filled.items moves lost) ∥₁ },
    pub ghost their_room: { All (HasRoomToFill geometry.children) them.parties.items },
    pub ghost their_frames: { 0 < vec_len them.parties
        → vec_len them.outs ≡ frame_count (plain_key geometry sealed) },
    pub ghost length: { vec_len words ≡ word_count (plain_key geometry true) },
    pub ghost frames: { vec_len outs ≡ frame_count (plain_key geometry sealed) },
    pub ghost some: { 0 < share },
    pub ghost counted: { moves < 2 ^ 64 },
    pub ghost room: { 1024 ≤ deque_capacity own },
    pub ghost distinct: { ∥ AreApart filled.items ∥₁ },
    pub ghost filled_room: { 8 * geometry.children < deque_capacity filled },
}

impl PlainMoves {
    ghost use Rattle.plain_moves.specs.PlainState.{
      key_by,
      words_by,
      image_by,
      view_by,
      IsByItself,
      Loses,
    };

    /// Nothing is held but the frames past the end.
    pub fn new(alloc: Global, geometry: &Geometry) -> Result<PlainMoves, Fault>
        ensures err { IfErr result (λ e. e ≡ Fault.NoMemory) }
        ensures words { IfOk result (λ m. IsSealedOpening (key_of geometry.now) (words_by m)) }
        ensures begins { IfOk result (λ m. Begins (key_of geometry.now) (words_by m)
            (⟦<PlainMoves as Moves>⟧.at m)) }
        ensures company { IfOk result IsByItself }
    {
        let image = Image::new(alloc, geometry)?;
        let words = image.words().to_vec(alloc)?;
        PlainMoves::of(alloc, *geometry, words, true)
    }

    /// Starts from an image whose counters are exact. What the image holds stays held: it is with
    /// the ground, and no block of it is out.
    pub fn new_at(alloc: Global, image: &Image) -> Result<PlainMoves, Fault>
        requires { IsRebuilt (plain_key image.now.geometry false) image.now.words image.now.words }
        ensures err { IfErr result (λ e. e ≡ Fault.NoMemory) }
        ensures begins { IfOk result (λ m. Begins (plain_key image.now.geometry false)
            image.now.words (⟦<PlainMoves as Moves>⟧.at m)) }
        ensures is_ground { IfOk result (λ m.
            FitsReopened (plain_key image.now.geometry false) (words_by m)) }
        ensures company { IfOk result IsByItself }
    {
        let geometry = image.geometry();
        let words = image.words().to_vec(alloc)?;
        PlainMoves::of(alloc, geometry, words, false)
    }

    /// The words as they stand, as an image: also of it the frames past the end are not free.
    pub fn image(&self, alloc: Global) -> Result<Image, Fault>
        ensures err { IfErr result (λ e. e ≡ Fault.NoMemory) }
        ensures image { IfOk result (λ i. i ≡ image_by self.now) }
        ensures in_range { IfOk result (λ i. IsImage (key_in i) i.words) }
    {
        let words = self.words.to_vec(alloc)?;
        Ok(Image::of_words(&self.geometry, words))
    }

    /// How many moves were made; the count stops at `2^64 - 1`. A script says by it at which move
    /// something happens.
    pub fn moves(&self) -> u64
        ensures { result ≡ (view_by self.now).moves }
    {
        self.moves
    }

    /// The words as they stand, in place of what the image was.
    pub fn copy_to(&self, image: &mut Image)
        requires { length image.old.words ≡ length (words_by self.now) }
        ensures { image.new ≡ image_by self.now }
    {
        image.copy_from(&self.geometry, self.words.as_slice());
    }

    /// An exchange is lost on purpose: of the own view only the counts change.
    pub fn lose(&mut self)
        ensures { Loses self.old self.new }
    {
        self.moves = self.moves.saturating_add(1);
        self.lost = self.lost.saturating_add(1);
    }

    fn of(
        alloc: Global,
        geometry: Geometry,
        words: Vec<u64>,
        sealed: bool,
    ) -> Result<PlainMoves, Fault>
        requires fits { ∥ FitsIdle (plain_key geometry sealed) words.items ∥₁ }
        requires length { vec_len words ≡ word_count (plain_key geometry true) }
        ensures err { IfErr result (λ e. e ≡ Fault.NoMemory) }
        ensures words { IfOk result (λ m. m.words ≡ words) }
        ensures key { IfOk result (λ m. key_by m ≡ plain_key geometry sealed) }
        ensures idle { IfOk result (λ m.
            view_by m ≡ idle (plain_key geometry sealed) geometry.cores) }
        ensures company { IfOk result IsByItself }
    {
        let outs = vec![in alloc; 0; CHILD_FRAMES as usize * geometry.children as usize]?;
        let own = VecDeque::with_capacity(alloc, MOST_PIECES)?;
        let filled = VecDeque::with_capacity(
            alloc,
            CHILD_WORDS as usize * geometry.children as usize + 1,
        )?;
        Ok(PlainMoves {
            geometry,
            sealed,
            words,
            outs,
            share: u64::from(geometry.cores()),
            own,
            paid: None,
            charged: None,
            reserving: None,
            filled,
            moves: 0,
            lost: 0,
            them: Company {
                parties: Vec::new(alloc),
                outs: Vec::new(alloc),
            },
        })
    }
}
