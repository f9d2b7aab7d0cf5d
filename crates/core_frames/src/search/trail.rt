//! What a core remembers of its searches, and where its pass over all trees begins.

ghost use Rattle.std.specs.Prelude.{◌≡◌, ◌+◌, ◌≤◌, true, false};
ghost use Rattle.core_frames.specs.declared.search.trail.Start.{Start};

/// Where the pass of a core over all trees begins.
#[derive(Clone, Copy, Debug, PartialEq, Eq)]
pub enum Start {
    /// At a place of the core's own; and each pass is made in each search, the last one even where nothing rested
    /// before it.
    Fixed,
    /// At the tree where such a pass found a block last, unless a tree is nearly free; and where
    /// nothing rested there is no last pass. Behind a pass over partly free trees that found none, 15
    /// searches for single frames leave it out.
    Last,
}

/// How many searches for single frames leave the pass over partly free trees out behind one that found none:
/// such a pass reads the words of all trees.
const LEFT_OUT: u8 = 15;

/// What a core remembers of its searches; with a fixed start, nothing.
#[derive(Clone, Copy, Debug)]
pub struct Trail {
    start: Start,
    // How many searches for single frames more leave the pass over partly free trees out.
    left_out: u8,
    // Whether that pass found a tree nearly free when it was made last.
    nearly_free: bool,
    // The tree in which a pass over all trees found a block last.
    last: Option<u32>,
    pub ghost few: { left_out ≤ 15 },
    pub ghost fixed: { start ≡ Start.Fixed → left_out ≡ 0 },
}

impl Trail {
    pub(crate) fn of(start: Start) -> Trail {
        Trail {
            start,
            left_out: 0,
            nearly_free: false,
            last: None,
        }
    }

    /// Whether nothing is remembered.
    pub(crate) fn is_fixed(&self) -> bool {
        self.start == Start::Fixed
    }

    /// Whether the pass over partly free trees is left out in a search for a block of the order.
    #[inline(always)]
    pub(crate) fn leaves_out(&mut self, order: u8) -> bool
        ensures counts { result ≡ true → self.new.left_out + 1 ≡ self.old.left_out }
    {
        if order > 0 || self.left_out == 0 {
            return false;
        }
        self.left_out -= 1;
        true
    }

    /// Records that this pass found no block of the order, and whether it found a tree nearly free.
    #[inline(always)]
    pub(crate) fn passed(&mut self, order: u8, nearly_free: bool) {
        if order == 0 && self.start == Start::Last {
            self.left_out = LEFT_OUT;
        }
        self.nearly_free = nearly_free;
    }

    /// Whether this pass found a tree nearly free when it was made last.
    pub(crate) fn nearly_free(&self) -> bool {
        self.nearly_free
    }

    /// Records that a pass over all trees found a block in the tree.
    pub(crate) fn found(&mut self, tree: u32) {
        if self.start == Start::Last {
            self.last = Some(tree);
        }
    }

    /// The tree that the pass over all trees begins with: `first` where one is nearly free, or none is
    /// remembered.
    pub(crate) fn start(&self, first: u32, trees: u32, nearly_free: bool) -> u32
        requires { first ≤ trees }
        ensures { result ≤ trees }
    {
        match self.last {
            Some(tree) if tree < trees && !nearly_free => tree,
            _ => first,
        }
    }
}
