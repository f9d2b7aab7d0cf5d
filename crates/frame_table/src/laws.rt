//! What holds of every mover on shared words: laws, proved as contracts of a function that does nothing.

ghost use Rattle.std.specs.Prelude.{◌≡◌, ◌≢◌, ℕ, Some, false, map};
ghost use Rattle.atomic_table.specs.Table.{State};
ghost use Rattle.frame_table.specs.declared.rule.Watch.{Watch};
ghost use Rattle.frame_model.specs.Laws.{IsSafe};
ghost use Rattle.frame_core.specs.Mover.{Tries};
ghost use Rattle.frame_model.specs.Steps.{Kind, place, next};
ghost use Rattle.frame_table.specs.Rule.{key_from, eye_view, Holds};
ghost use Rattle.frame_table.specs.declared.rule.Origin.{Origin};
ghost use Rattle.frame_table.specs.declared.shared.SharedMoves.{SharedMoves};

use crate::shared::SharedMoves;
use frame_core::Moves;
use frame_model::every_fit_is_safe;

/// Over shared words no exchange is lost at will, who steps alone has all shares, and every count is
/// exact. One that was lost found another word than
/// was seen, which is known then.
pub fn shared_words_are_honest<'a>()
    ensures never_at_will { (m : SharedMoves) → ¬ (⟦<SharedMoves<'a> as Moves>⟧.at m).loses_at_will }
    ensures alone { (m : SharedMoves) → (⟦<SharedMoves<'a> as Moves>⟧.at m).is_alone
        → (⟦<SharedMoves<'a> as Moves>⟧.at m).view.share ≡ (⟦<SharedMoves<'a> as Moves>⟧.at m).key.cores }
    ensures exact { (n : ℕ) → ⟦<SharedMoves<'a> as Moves>⟧.is_exact n }
    ensures lost { (m n : SharedMoves) (kind : Kind) (seen : ℕ)
        → Tries next kind seen false (⟦<SharedMoves<'a> as Moves>⟧.at m) (⟦<SharedMoves<'a> as Moves>⟧.at n)
        → (found : ℕ) × ((found ≢ seen) × ((⟦<SharedMoves<'a> as Moves>⟧.at n).read
        (place (⟦<SharedMoves<'a> as Moves>⟧.at m).key kind) ≡ Some found)) }
{}

/// The rule that a shared table keeps at every step makes its words safe: what its seats hold, in
/// flight, kept or handed out, is aligned, lies inside memory and never overlaps, and no counter
/// promises more frames than are free.
pub fn shared_words_are_safe()
    ensures { (o : Origin) (s : State (Unit {0}) Watch) → Holds o s
        → IsSafe (key_from o) s.words (map eye_view s.views) }
{
    every_fit_is_safe();
}
