//! What records say of children, trees and cores.

ghost use Rattle.std.specs.Prelude.{◌≡◌, ◌<◌, ◌≤◌, ◌∷◌, [], codes, true, IsTrue};
ghost use Rattle.csv.specs.Records.{field_at, fields_of};
ghost use Rattle.frame_model.specs.Key.{key_of, tree_count, size_of};
ghost use Rattle.frame_core.specs.Image.{key_in, FitsTree};
ghost use Rattle.frame_text.specs.ImageText as Spec;
ghost use Rattle.frame_text.specs.Numbers.{number_below as the_number_below};
ghost use Rattle.std.specs.Prelude.{IfSome, IfNone, Some, None, length, ◌≢◌};
ghost use Rattle.std.specs.Bool.{OnTrue, OnFalse};
ghost use Rattle.frame_words.specs.Geometry.{child_frames, tree_frames};

use crate::bit_words::words_in;
use crate::numbers::number_below;
use csv::ByteRecord;
use frame_core::Image;
use frame_words::{CHILD_FRAMES, Geometry, WORD_FRAMES};

// Writes a part of the image as the five fields of a record say it; `false` where they are no
// such part.
#[tactic(auto, unfolding(crate::specs::ImageText::fields_with))]
pub(crate) fn read_fields(
    image: &mut Image,
    part: u32,
    word: &[u8],
    number: &[u8],
    third: &[u8],
    fourth: &[u8],
    fifth: &[u8],
) -> bool
    ensures read { OnTrue result (Spec.fields_with (key_in image.old) part image.old.words
        word.now number.now third.now fourth.now fifth.now
        ≡ Some image.new.words) }
    ensures refused { OnFalse result (Spec.fields_with (key_in image.old) part image.old.words
        word.now number.now third.now fourth.now fifth.now
        ≡ None) }
    ensures geometry { image.new.geometry ≡ image.old.geometry }
    ensures last { OnTrue result (part < Spec.part_count (key_in image.old)) }
{
    let geometry = image.geometry();
    if part < geometry.children() {
        return read_child(image, part, word, number, third, fourth, fifth);
    }
    let tree = part - geometry.children();
    if tree < geometry.trees() {
        return read_tree(image, tree, word, number, third, fourth, fifth);
    }
    let core = tree - geometry.trees();
    core < geometry.cores() && read_core(image, core, word, number, third, fourth, fifth)
}

// Writes a child as a record says it.
#[tactic(auto, unfolding(crate::specs::ImageText::child_with))]
fn read_child(
    image: &mut Image,
    child: u32,
    word: &[u8],
    number: &[u8],
    free: &[u8],
    huge: &[u8],
    bits: &[u8],
) -> bool
    requires { child < image.old.geometry.children }
    ensures read { OnTrue result (Spec.child_with (key_in image.old) child image.old.words
        word.now number.now free.now huge.now bits.now
        ≡ Some image.new.words) }
    ensures refused { OnFalse result (Spec.child_with (key_in image.old) child image.old.words
        word.now number.now free.now huge.now bits.now
        ≡ None) }
    ensures geometry { image.new.geometry ≡ image.old.geometry }
{
    if !is_named(b"child", child, word, number) {
        return false;
    }
    let frames = frames_in(image.geometry(), child);
    match child_said(frames, free, huge, bits) {
        Some(said) => {
            let words = said.2;
            image.set_child(child, said.0, said.1, words);
            true
        }
        None => false,
    }
}

// How many frames of the child exist.
fn frames_in(geometry: Geometry, child: u32) -> u32
    requires { child < geometry.children }
    ensures { result ≡ Spec.frames_in (key_of geometry) child }
{
    CHILD_FRAMES.min(geometry.frames().saturating_sub(CHILD_FRAMES * child))
}

// The free frames of a child, whether it is huge, and its bit words.
#[tactic(auto, unfolding(crate::specs::ImageText::child_said))]
fn child_said(frames: u32, free: &[u8], huge: &[u8], bits: &[u8]) -> Option<(u32, bool, [u64; 8])>
    requires { frames ≤ child_frames }
    ensures value { result ≡ Spec.child_said frames free.now huge.now bits.now }
    ensures limit { IfSome result (λ said. said.0 ≤ child_frames) }
    ensures end { IfSome result (λ said. Spec.keeps_end frames said.1 said.2 ≡ true) }
{
    let free = count_below(free, CHILD_FRAMES + 1)?;
    let huge = flag_said(huge)?;
    let words = words_in(bits)?;
    if keeps_end(frames, huge, &words) {
        Some((free, huge, words))
    } else {
        None
    }
}

// Are the frames that do not exist set, and the child not huge where there are any?
#[tactic(auto, unfolding(crate::specs::ImageText::keeps_end))]
fn keeps_end(frames: u32, huge: bool, bits: &[u64; 8]) -> bool
    requires { frames ≤ child_frames }
    ensures { result ≡ Spec.keeps_end frames huge bits.now }
{
    frames >= CHILD_FRAMES || (!huge && all_set_from(frames, bits))
}

// Are all frames of the child from this one on set?
#[tactic(auto, unfolding(crate::specs::ImageText::all_set_from))]
fn all_set_from(first: u32, bits: &[u64; 8]) -> bool
    requires { first ≤ child_frames }
    ensures { result ≡ Spec.all_set_from first bits.now }
{
    for frame in first..CHILD_FRAMES {
        let word = bits[(frame / WORD_FRAMES) as usize];
        if word >> (frame % WORD_FRAMES) & 1 == 0 {
            return false;
        }
    }
    true
}

// Writes a tree as a record says it.
#[tactic(auto, unfolding(crate::specs::ImageText::tree_with))]
fn read_tree(
    image: &mut Image,
    tree: u32,
    word: &[u8],
    number: &[u8],
    free: &[u8],
    reserved: &[u8],
    nothing: &[u8],
) -> bool
    requires { tree < tree_count (key_in image.old) }
    ensures read { OnTrue result (Spec.tree_with (key_in image.old) tree image.old.words
        word.now number.now free.now reserved.now nothing.now
        ≡ Some image.new.words) }
    ensures refused { OnFalse result (Spec.tree_with (key_in image.old) tree image.old.words
        word.now number.now free.now reserved.now nothing.now
        ≡ None) }
    ensures geometry { image.new.geometry ≡ image.old.geometry }
{
    if !(is_named(b"tree", tree, word, number) && nothing.is_empty()) {
        return false;
    }
    let size = image.geometry().tree_size(tree);
    match tree_said(size, free, reserved) {
        Some((free, reserved)) => {
            image.set_tree(tree, free, reserved);
            true
        }
        None => false,
    }
}

// The free frames of a tree of this size, and whether it is reserved.
#[tactic(auto, unfolding(crate::specs::ImageText::tree_said))]
fn tree_said(size: u32, free: &[u8], reserved: &[u8]) -> Option<(u32, bool)>
    requires { size ≤ tree_frames }
    ensures value { result ≡ Spec.tree_said size free.now reserved.now }
    ensures limit { IfSome result (λ said. said.0 ≤ size) }
{
    let free = count_below(free, size + 1)?;
    let reserved = flag_said(reserved)?;
    Some((free, reserved))
}

// Writes the reservation of a core as a record says it.
#[tactic(auto, unfolding(crate::specs::ImageText::core_with))]
fn read_core(
    image: &mut Image,
    core: u32,
    word: &[u8],
    number: &[u8],
    tree: &[u8],
    free: &[u8],
    nothing: &[u8],
) -> bool
    requires { core < image.old.geometry.cores }
    ensures read { OnTrue result (Spec.core_with (key_in image.old) core image.old.words
        word.now number.now tree.now free.now nothing.now
        ≡ Some image.new.words) }
    ensures refused { OnFalse result (Spec.core_with (key_in image.old) core image.old.words
        word.now number.now tree.now free.now nothing.now
        ≡ None) }
    ensures geometry { image.new.geometry ≡ image.old.geometry }
{
    if !(is_named(b"core", core, word, number) && nothing.is_empty()) {
        return false;
    }
    match rest_said(image.geometry(), tree, free) {
        Some(rest) => {
            image.set_local(core, rest);
            true
        }
        None => false,
    }
}

// A reservation, or none where both fields are empty.
#[tactic(auto, unfolding(crate::specs::ImageText::rest_said))]
fn rest_said(geometry: Geometry, tree: &[u8], free: &[u8]) -> Option<Option<(u32, u32)>>
    ensures value { result ≡ Spec.rest_said (key_of geometry) tree.now free.now }
    ensures fits { IfSome result (λ rest. IfSome rest (FitsTree (key_of geometry))) }
{
    if tree.is_empty() && free.is_empty() {
        return Some(None);
    }
    let rest = reservation_said(geometry, tree, free)?;
    Some(Some(rest))
}

// A tree, and how many of its frames rest.
#[tactic(auto, unfolding(crate::specs::ImageText::reservation_said))]
fn reservation_said(geometry: Geometry, tree: &[u8], free: &[u8]) -> Option<(u32, u32)>
    ensures value { result ≡ Spec.reservation_said (key_of geometry) tree.now free.now }
    ensures fits { IfSome result (FitsTree (key_of geometry)) }
{
    let tree = count_below(tree, geometry.trees())?;
    let free = count_below(free, geometry.tree_size(tree) + 1)?;
    Some((tree, free))
}

// Is this the part of that name and number?
#[tactic(auto, unfolding(crate::specs::ImageText::is_named))]
fn is_named(name: &[u8], part: u32, word: &[u8], number: &[u8]) -> bool
    ensures { result ≡ Spec.is_named name.now part word.now number.now }
{
    word == name && spells(part, number)
}

// Does the field spell this number?
#[tactic(auto, unfolding(crate::specs::ImageText::spells, crate::specs::Numbers::number_below))]
fn spells(n: u32, field: &[u8]) -> bool
    ensures { result ≡ Spec.spells n field.now }
{
    match number_below(field, u64::from(n) + 1) {
        Some(value) => value == u64::from(n),
        None => false,
    }
}

// A flag, as a field spells it.
#[tactic(auto, unfolding(crate::specs::ImageText::flag_said))]
fn flag_said(field: &[u8]) -> Option<bool>
    ensures { result ≡ Spec.flag_said field.now }
{
    let flag = number_below(field, 2)?;
    Some(flag == 1)
}

// The number below the limit that a field spells.
pub(crate) fn count_below(field: &[u8], limit: u32) -> Option<u32>
    ensures value { result ≡ the_number_below limit field.now }
    ensures below { IfSome result (λ n. n < limit) }
{
    match number_below(field, u64::from(limit)) {
        Some(value) => Some(value as u32),
        None => None,
    }
}
