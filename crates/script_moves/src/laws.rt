//! What holds of every mover by a script: laws, proved as contracts of functions that do nothing.

ghost use Rattle.std.specs.Prelude.{◌≡◌, ℕ, ◌+◌, ◌<◌, ◌≤◌, List, [], ◌∷◌, Some, None, true, false, slice_get};
ghost use Rattle.frame_core.specs.Image.{Contents};
ghost use Rattle.frame_model.specs.Fit.{Fit};
ghost use Rattle.frame_model.specs.Steps.{Kind};
ghost use Rattle.plain_moves.specs.declared.plain.party.Party.{Party};
ghost use Rattle.plain_moves.specs.PlainState.{key_by, view_by, words_by};
ghost use Rattle.script_moves.specs.declared.script.ScriptMoves.{ScriptMoves};
ghost use Rattle.script_moves.specs.declared.script.cue.Cue.{Cue};
ghost use Rattle.script_moves.specs.Plays.{LoadsIt, TriesIt};
ghost use Rattle.script_moves.specs.ScriptMoves.{
  plain_by,
  begun_by,
  cues_by,
  next_by,
  skipped_by,
  stage_by,
  stop_by,
  strangers_by,
  IsStopOf,
  IsUnstopped,
  Plays,
  StopOf,
};
ghost use Rattle.script_moves.specs.Worked.{
  StandsFirst,
  StandsSecond,
  first_tree_word,
  five_less,
  five_paid,
};

use crate::script::{ScriptMoves, What};
use frame_core::Moves;
use frame_model::Place;

/// A mover by a script always knows its words. It is undisturbed where only cues `Stop` stand at
/// its next move, alone once every cue is past and no stranger has anything in flight, and loses
/// its next exchange at will exactly where a cue `Lose` stands at it. A stop that it shows stood at
/// an earlier move, and where it shows none, none did.
pub fn scripts_are_honest()
    ensures words { (m : ScriptMoves) → (⟦<ScriptMoves as Moves>⟧.at m).words
        ≡ Some (words_by (plain_by m)) }
    ensures between { (m : ScriptMoves) → ((k : ℕ) (cue : Cue) → slice_get (cues_by m) k ≡ Some cue
        → cue.at ≡ next_by m → cue.what ≡ What.Stop)
        → (⟦<ScriptMoves as Moves>⟧.at m).is_undisturbed }
    ensures over { (m : ScriptMoves) → ((k : ℕ) (cue : Cue) → slice_get (cues_by m) k ≡ Some cue
        → cue.at < next_by m) → ((k : ℕ) (p : Party) → slice_get (strangers_by m) k ≡ Some p
        → (p.paid ≡ None) × (p.charged ≡ None) × (p.reserving ≡ None) × (p.own.items ≡ []))
        → (⟦<ScriptMoves as Moves>⟧.at m).is_alone }
    ensures loses { (m : ScriptMoves) (k : ℕ) (cue : Cue) → slice_get (cues_by m) k ≡ Some cue
        → cue.at ≡ next_by m → cue.what ≡ What.Lose
        → (⟦<ScriptMoves as Moves>⟧.at m).loses_at_will }
    ensures at_will { (m : ScriptMoves) → (⟦<ScriptMoves as Moves>⟧.at m).loses_at_will
        → (cue : Cue) × (((k : ℕ) × (slice_get (cues_by m) k ≡ Some cue))
        × ((cue.at ≡ next_by m) × (cue.what ≡ What.Lose))) }
    ensures stopped { (m : ScriptMoves) (ws : List ℕ) → IsStopOf m ws
        → (plain_by m).moves < 18446744073709551615
        → ∥ ((cue : Cue) × (((k : ℕ) × (slice_get (cues_by m) k ≡ Some cue))
        × ((cue.at < next_by m) × (cue.what ≡ What.Stop)))) ∥₁ }
    ensures unstopped { (m : ScriptMoves) (k : ℕ) (cue : Cue) → IsUnstopped m
        → slice_get (cues_by m) k ≡ Some cue → cue.what ≡ What.Stop → next_by m ≤ cue.at }
{}

/// Of every stop that a script shows. A cue of the script made it, which stops and stands at no later
/// move than the next. The caller had then made as many moves since the script began as the cue
/// says; the words fit with its view of then, and with others. It has made one step of its own for
/// each move since, as long as moves are counted exactly, in the same memory and with the same
/// shares. No cue of an earlier move than the next stops at a later move, nor at the same move later
/// in the script.
pub fn stops_are_of_their_moment()
    ensures stops { (m : ScriptMoves) (ws : List ℕ) (s : StopOf m ws) →
        (slice_get (cues_by m) s.place ≡ Some s.cue) × ((s.cue.what ≡ What.Stop)
        × (s.cue.at ≤ next_by m)) }
    ensures moved { (m : ScriptMoves) (ws : List ℕ) (s : StopOf m ws) →
        s.caller.moves ≡ begun_by m + s.cue.at }
    ensures fits { (m : ScriptMoves) (ws : List ℕ) (s : StopOf m ws) →
        Fit (key_by (plain_by m)) s.shares ws (s.caller ∷ s.others) }
    ensures since { (m : ScriptMoves) (ws : List ℕ) (s : StopOf m ws)
        → (plain_by m).moves < 18446744073709551615
        → s.caller.moves + s.steps ≡ (plain_by m).moves }
    ensures same { (m : ScriptMoves) (ws : List ℕ) (s : StopOf m ws) →
        ((view_by (plain_by m)).about ≡ s.caller.about)
        × ((view_by (plain_by m)).share ≡ s.caller.share) }
    ensures latest { (m : ScriptMoves) (ws : List ℕ) (s : StopOf m ws) (k : ℕ) (cue : Cue)
        → slice_get (cues_by m) k ≡ Some cue → cue.what ≡ What.Stop
        → cue.at < next_by m → cue.at ≤ s.cue.at }
    ensures last { (m : ScriptMoves) (ws : List ℕ) (s : StopOf m ws) (k : ℕ) (cue : Cue)
        → slice_get (cues_by m) k ≡ Some cue → cue.what ≡ What.Stop
        → cue.at < next_by m → cue.at ≡ s.cue.at → k ≤ s.place }
{}

/// Behind the first move of the worked script the stop is that of its first cue, one step ago.
pub fn a_worked_stop_is_of_its_moment()
    ensures { (old new : ScriptMoves) (found : ℕ) (ws : List ℕ) → StandsFirst (stage_by old)
        → Plays false (LoadsIt (Place.Tree 0) found) old new → (s : StopOf new ws)
        → (plain_by new).moves < 18446744073709551615
        → ((s.place ≡ 0) × (s.cue.at ≡ 0))
        × ((s.caller.moves ≡ (plain_by old).moves) × (s.steps ≡ 1)) }
{}

/// What comes of one script. Just before a load of tree 0 it stops, then stranger 0 pays five
/// frames, and then a ninth stranger, whom there is not, is told to pay; the exchange behind it is
/// to be lost. So the load finds five free frames less than the words that the stop shows, nothing
/// else has changed, and one cue is skipped; the lost exchange changes no word, and nothing of this.
pub fn a_script_is_followed()
    ensures pays { (old new : ScriptMoves) (found : ℕ) → StandsFirst (stage_by old)
        → Plays false (LoadsIt (Place.Tree 0) found) old new
        → words_by (plain_by new) ≡ five_paid (plain_by old) }
    ensures found { (old new : ScriptMoves) (found : ℕ) → StandsFirst (stage_by old)
        → Plays false (LoadsIt (Place.Tree 0) found) old new
        → found ≡ five_less (first_tree_word (plain_by old)) }
    ensures stopped { (old new : ScriptMoves) (found : ℕ) → StandsFirst (stage_by old)
        → Plays false (LoadsIt (Place.Tree 0) found) old new
        → (image : Contents) × ((stop_by new ≡ Some image)
        × (image.words ≡ words_by (plain_by old))) }
    ensures skipped { (old new : ScriptMoves) (found : ℕ) → StandsFirst (stage_by old)
        → Plays false (LoadsIt (Place.Tree 0) found) old new → skipped_by new ≡ 1 }
    ensures lost { (old new : ScriptMoves) (kind : Kind) (seen : ℕ) → StandsSecond (stage_by old)
        → Plays true (TriesIt kind seen false) old new
        → (words_by (plain_by new) ≡ words_by (plain_by old))
        × ((stop_by new ≡ stop_by old) × (skipped_by new ≡ skipped_by old)) }
{}
