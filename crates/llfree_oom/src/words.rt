//! Words as plain data: images, and moves over them by one caller.

use crate::calls::{Calls, twice};
use crate::samples::{RANGES, SMALL};
use frame_core::Image;
use frame_image::held_frames;
use frame_words::Fault;
use plain_moves::PlainMoves;
use script_moves::{Cue, ScriptMoves, What};
use std::alloc::Global;

impl Calls {
    fn new_image(&mut self, alloc: Global) -> Result<(), Fault> {
        let image = twice!(self, Image::new(alloc, &SMALL))?;
        self.look(held_frames(&image) == 0);
        Ok(())
    }

    #[tactic(auto, unfolding(frame_model::specs::Key::AreRanges))]
    fn image_with_ranges(&mut self, alloc: Global) -> Result<(), Fault> {
        let image = twice!(self, Image::with_ranges(alloc, &SMALL, &RANGES))?;
        self.look(held_frames(&image) == 8);
        Ok(())
    }

    fn new_moves(&mut self, alloc: Global) -> Result<(), Fault> {
        let moves = twice!(self, PlainMoves::new(alloc, &SMALL))?;
        self.look(moves.moves() == 0);
        Ok(())
    }

    fn moves_at_an_image(&mut self, alloc: Global) -> Result<(), Fault> {
        let image = self.rebuilt_image(alloc)?;
        let moves = twice!(self, PlainMoves::new_at(alloc, &image))?;
        self.look(moves.moves() == 0);
        Ok(())
    }

    fn image_of_moves(&mut self, alloc: Global) -> Result<(), Fault> {
        let moves = twice!(self, PlainMoves::new(alloc, &SMALL))?;
        let image = twice!(self, moves.image(alloc))?;
        self.look(held_frames(&image) == 0);
        Ok(())
    }

    // A script that copies the words before the first move.
    fn script(&mut self, alloc: Global) -> Result<Vec<Cue>, Fault> {
        let mut cues = self.room(alloc, 1)?;
        cues.push(Cue {
            at: 0,
            what: What::Stop,
        })?;
        Ok(cues)
    }

    fn new_script(&mut self, alloc: Global) -> Result<(), Fault> {
        let plain = twice!(self, PlainMoves::new(alloc, &SMALL))?;
        let cues = self.script(alloc)?;
        let moves = match ScriptMoves::new(alloc, plain, cues) {
            Ok(moves) => moves,
            Err(plain) => {
                self.refuse();
                let cues = self.script(alloc)?;
                let Ok(moves) = ScriptMoves::new(alloc, plain, cues) else {
                    return Err(Fault::NoMemory);
                };
                moves
            }
        };
        self.look(moves.stopped().is_none() && moves.skipped() == 0);
        Ok(())
    }

    /// Each call on words, once.
    pub fn make_on_words(&mut self, alloc: Global) -> Result<(), Fault> {
        self.new_image(alloc)?;
        self.image_with_ranges(alloc)?;
        self.new_moves(alloc)?;
        self.moves_at_an_image(alloc)?;
        self.image_of_moves(alloc)?;
        self.new_script(alloc)
    }
}
