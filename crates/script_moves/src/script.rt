//! Moves over plain words, in which a script says what others do between them.

mod cue;
mod cues;
mod moves;
mod stage;

ghost use Rattle.std.specs.Prelude.{◌≡◌, ℕ, List, [], None, Some, MatchOption, IfOk, IfErr};
ghost use Rattle.frame_model.specs.declared.key.Key.{Key};
ghost use Rattle.plain_moves.specs.Plain.{Begins};
ghost use Rattle.script_moves.specs.ScriptState.{ShowsTo};

pub use cue::{Cue, What};
use frame_core::{Image, Moves};
use plain_moves::PlainMoves;
use stage::Stage;
use std::alloc::Global;

/// The moves of one caller over plain words. A script says at which of them an exchange is lost,
/// where one of eight strangers makes a move of its own, and where the words are copied.
#[derive(Drop)]
pub struct ScriptMoves {
    stage: Stage,
    // Between two moves no cue of the next one was met.
    pub ghost shows: { ShowsTo 0 stage },
}

impl ScriptMoves {
    ghost use Rattle.plain_moves.specs.PlainState.{words_by, IsByItself};
    ghost use Rattle.script_moves.specs.ScriptMoves.{
      plain_by,
      skipped_by,
      stop_by,
      BeginsScript,
      IsStopOf,
      IsUnstopped,
    };

    /// Eight strangers come beside the caller of these moves, each with one share and nothing in
    /// flight. Moves are counted from here on. The moves come back where memory is refused.
    pub fn new(alloc: Global, plain: PlainMoves, cues: Vec<Cue>) -> Result<ScriptMoves, PlainMoves>
        requires alone { IsByItself plain }
        ensures back { IfErr result (λ p. p ≡ plain) }
        ensures follows { IfOk result (BeginsScript plain cues.items) }
        ensures begins { IfOk result (λ m. (memory : Key) (ws : List ℕ) → cues.items ≡ []
            → Begins memory ws (⟦<PlainMoves as Moves>⟧.at plain)
            → Begins memory ws (⟦<ScriptMoves as Moves>⟧.at m)) }
    {
        let Ok(stop) = plain.image(alloc) else {
            return Err(plain);
        };
        let Ok(read) = stop.words().to_vec(alloc) else {
            return Err(plain);
        };
        let mut plain = plain;
        if plain.admit_strangers(alloc).is_err() {
            return Err(plain);
        }
        let begun = plain.moves();
        Ok(ScriptMoves {
            stage: Stage {
                plain,
                cues,
                read,
                begun,
                missed: false,
                skipped: 0,
                stop,
                has_stopped: false,
            },
        })
    }

    /// How many cues were reached and not made: acts that their conditions did not allow, acts of
    /// strangers past the eighth, and losses at a move that is no exchange.
    pub fn skipped(&self) -> u32
        ensures { result ≡ skipped_by self.now }
    {
        self.stage.skipped
    }

    /// The words as they stood just before the move of the latest `Stop`, if one was reached. Of two
    /// at one move the later in the script is the latest.
    pub fn stopped(&self) -> Option<&Image>
        ensures same { MatchOption result (stop_by self.now ≡ None)
            (λ image. stop_by self.now ≡ Some image.now) }
        ensures words { MatchOption result (IsUnstopped self.now)
            (λ image. IsStopOf self.now image.now.words) }
    {
        if !self.stage.has_stopped {
            return None;
        }
        Some(&self.stage.stop)
    }

    /// The words, and what the caller has in flight.
    pub fn plain(&self) -> &PlainMoves
        ensures { result.now ≡ plain_by self.now }
    {
        &self.stage.plain
    }
}
