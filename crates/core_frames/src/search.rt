//! Which tree a core takes from next: its own, one that no core has reserved, any after a drain.

pub(crate) mod attempts;
pub(crate) mod drain;
pub(crate) mod fills;
pub(crate) mod habit;
pub(crate) mod own_tree;
pub(crate) mod trail;
pub(crate) mod trees;

pub use habit::Habit;
pub use trail::Start;
