//! The right to a block, as C carries it.

ghost use Rattle.std.specs.Prelude.{◌≡◌, []};
ghost use Rattle.frame_table.specs.declared.rule.Watch.{Watch};
ghost use Rattle.atomic_table.specs.declared.badge.Badge.{Badge};

use atomic_table::Badge;
use frame_table::Watch;
use std::marker::Model;

/// The right to one block, or none. It has no bytes, so C keeps it where it keeps the block's numbers.
#[repr(C)]
#[derive(Drop)]
pub struct BlockRight {
    pub ghost badge: { Badge Watch },
}

impl Model for BlockRight {
    ghost use Rattle.llfree_c.specs.Rights.{right_owned};

    ghost also_owns = { λ r. right_owned r.badge };
}

impl BlockRight {
    pub(crate) fn nothing() -> BlockRight
        ensures { result.badge.views ≡ [] }
    {
        BlockRight {}
    }

    // Each has what the other had.
    fn trade(&mut self, badge: &mut Badge<Watch>)
        ensures { (self.new.badge ≡ badge.old) × (badge.new ≡ self.old.badge) }
    {}

    pub(crate) fn of(mut badge: Badge<Watch>) -> BlockRight
        ensures { result.badge ≡ badge }
    {
        let mut right = BlockRight::nothing();
        right.trade(&mut badge);
        right
    }

    pub(crate) fn into_badge(mut self) -> Badge<Watch>
        ensures { result ≡ self.badge }
    {
        let mut badge = Badge::blank();
        self.trade(&mut badge);
        badge
    }
}

unsafe impl Send for BlockRight {}
