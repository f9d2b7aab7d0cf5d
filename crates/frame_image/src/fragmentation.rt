//! Counting a report: child by child, tree by tree.

ghost use Rattle.std.specs.Prelude.{◌≡◌, ◌^◌, ◌+◌, ◌<◌, ℕ, get_or, IfErr, IfOk};
ghost use Rattle.frame_model.specs.Key.{tree_count};
ghost use Rattle.frame_core.specs.Image.{key_in};
ghost use Rattle.frame_image.specs.Tally.{tally_of, tree_numbers};

use crate::child_numbers::{NUMBERS, count_child};
use crate::totals::Report;
use frame_core::Image;
use frame_words::{Fault, TREE_CHILDREN};
use std::alloc::Global;

/// Counts the held and free frames of an image and its clear blocks, from bits and huge flags
/// alone.
pub fn report(alloc: Global, image: &Image) -> Result<Report, Fault>
    ensures counted { IfOk result (λ report. report ≡ tally_of (key_in image.now) image.now.words) }
    ensures fault { IfErr result (λ e. e ≡ Fault.NoMemory) }
{
    let geometry = image.geometry();
    let mut trees = Vec::with_capacity(alloc, geometry.trees() as usize)?;
    let mut all = [0; NUMBERS];
    for tree in 0..geometry.trees() {
        let numbers = count_tree(image, tree);
        add(&mut all, &numbers);
        trees.push(numbers)?;
    }
    Ok(Report::of(trees, all))
}

// The numbers of a tree.
fn count_tree(image: &Image, tree: u32) -> [u32; NUMBERS]
    requires { tree < tree_count (key_in image.now) }
    ensures { result ≡ tree_numbers (key_in image.now) image.now.words tree }
{
    let geometry = image.geometry();
    let first = TREE_CHILDREN * tree;
    let end = geometry.children().min(first + TREE_CHILDREN);
    let mut sum = [0; NUMBERS];
    for child in first..end {
        let numbers = count_child(image, child);
        add(&mut sum, &numbers);
    }
    sum
}

// Adds numbers to others, each to its own.
fn add(sum: &mut [u32; NUMBERS], numbers: &[u32; NUMBERS])
    requires { (i : ℕ) → i < NUMBERS → get_or sum.old i 0 + get_or numbers.now i 0 < 2 ^ 32 }
    ensures { (i : ℕ) → i < NUMBERS
        → get_or sum.new i 0 ≡ get_or sum.old i 0 + get_or numbers.now i 0 }
{
    for place in 0..NUMBERS {
        sum[place] += numbers[place];
    }
}
