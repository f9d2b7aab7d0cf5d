//! What a take that is refused may have missed, wherever other cores stopped in their calls.

ghost use Rattle.llfree_example.specs.Searches.{MissesNothingElse};

use core_frames::searches_miss_what_is_withheld;

/// A search of all trees misses no free block but those whose tree somebody is reserving or has paid frames
/// of, or whose child somebody has charged.
pub(crate) fn nothing_else_is_missed()
    ensures { MissesNothingElse }
{
    searches_miss_what_is_withheld();
}
