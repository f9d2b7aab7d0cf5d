//! The local word of a core: 0 for none, else `2^63 + tree * 2^32 + free` of its reservation.

ghost use Rattle.std.specs.Prelude.{◌≡◌, ◌<◌, ◌≤◌};
ghost use Rattle.std.specs.Option.{ForSome};
ghost use Rattle.frame_words.specs.Geometry.{most_trees, tree_frames};
ghost use Rattle.frame_words.specs.Words.{local_word, rest_in};

const SOME: u64 = 0x8000_0000_0000_0000;

const TREE: u64 = 0x1_0000_0000;

/// The local word of a core that holds a tree with so many resting frames, or none.
#[tactic(auto, unfolding(crate::specs::Words::local_word, crate::specs::Words::rest_in))]
pub fn local(rest: Option<(u32, u32)>) -> u64
    requires { ForSome rest (λ r. (r.0 < most_trees) × (r.1 ≤ tree_frames)) }
    ensures word { result ≡ local_word rest }
    ensures rest { rest_in result ≡ rest }
{
    match rest {
        None => 0,
        Some((tree, free)) => SOME + u64::from(tree) * TREE + u64::from(free),
    }
}

/// The tree and its resting frames that the local word tells, or none.
#[inline]
#[tactic(auto, unfolding(crate::specs::Words::rest_in))]
pub fn local_of(word: u64) -> Option<(u32, u32)>
    ensures { result ≡ rest_in word }
{
    if word < SOME {
        return None;
    }
    Some((((word - SOME) / TREE) as u32, (word % TREE) as u32))
}
