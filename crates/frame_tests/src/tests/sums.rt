//! What an image says, counted once more.

use frame_core::Image;

// The frames of the child that are held, by its flag or by its bits, if its entry counts the others.
pub(super) fn held_in(image: &Image, child: u32) -> Option<u32> {
    if child >= image.geometry().children() {
        return None;
    }
    let mut held = if image.huge(child) { 512u32 } else { 0 };
    for word in 0..8u32 {
        held = held.saturating_add(image.word(child, word).count_ones());
    }
    if held.saturating_add(image.free(child)) != 512 {
        return None;
    }
    Some(held)
}

// How many cores have reserved the tree, and the frames that rest on it.
fn resting(image: &Image, tree: u32) -> (u32, u32) {
    let (mut count, mut frames) = (0u32, 0u32);
    let geometry = image.geometry();
    for core in 0..geometry.cores() {
        if let Some((there, rest)) = image.local_at(core) {
            if there == tree {
                count = count.saturating_add(1);
                frames = frames.saturating_add(rest);
            }
        }
    }
    (count, frames)
}

// The frames of the tree that are held, if it adds up: what is free, what rests and what is held is all.
fn held_in_tree(image: &Image, tree: u32) -> Option<u32> {
    let geometry = image.geometry();
    if tree >= geometry.trees() {
        return None;
    }
    let mut held = 0u32;
    for i in 0..8u32 {
        let child = 8 * tree + i;
        if child < geometry.children() {
            let Some(there) = held_in(image, child) else {
                return None;
            };
            held = held.saturating_add(there);
        }
    }
    let (cores, rest) = resting(image, tree);
    let all = image
        .tree_free(tree)
        .saturating_add(rest)
        .saturating_add(held);
    if all != geometry.tree_size(tree) || cores != u32::from(image.tree_reserved(tree)) {
        return None;
    }
    Some(held)
}

// How many frames are held, if each child and each tree adds up.
pub(super) fn held_in_all(image: &Image) -> Option<u32> {
    let mut held = 0u32;
    for tree in 0..image.geometry().trees() {
        let Some(there) = held_in_tree(image, tree) else {
            return None;
        };
        held = held.saturating_add(there);
    }
    Some(held)
}
