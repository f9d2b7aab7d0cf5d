//! Takes and gives inside a tree, over any moves.
#![tactic(auto)]

mod attempts;
mod gives;
mod huge;
mod in_tree;
mod places;
mod singles;
mod small;
mod wide;

pub use attempts::TRIES;
pub use gives::give_low;
pub use huge::take_huge;
pub use in_tree::take_in_tree;
pub use places::take_at;
pub use singles::take_some;
pub use small::take_small;
pub use wide::take_wide;
