//! The first record of an image: the sizes of its memory.

ghost use Rattle.std.specs.Prelude.{◌≡◌, ◌*◌, ◌≤◌, ◌<◌, IfSome, option_map, codes};
ghost use Rattle.csv.specs.Records.{fields_of};
ghost use Rattle.frame_words.specs.Geometry.{most_children, most_text_cores};
ghost use Rattle.frame_model.specs.Key.{key_of};
ghost use Rattle.frame_text.specs.ImageText as Spec;

use crate::fields::five_fields;
use crate::image_parts::count_below;
use csv::ByteRecord;
use frame_words::{CHILD_FRAMES, Geometry, MOST_CHILDREN, MOST_FRAMES, MOST_TEXT_CORES};

// The sizes that the first record of an image says.
#[tactic(auto, unfolding(crate::specs::ImageText::header_said))]
pub(crate) fn header_said(row: &ByteRecord) -> Option<Geometry>
    ensures said { option_map (λ g. key_of g) result ≡ Spec.header_said (fields_of row.now) }
    ensures few { IfSome result (λ g. g.cores ≤ most_text_cores) }
{
    match five_fields(row) {
        Some((word, version, children, cores, frames)) => {
            named_sizes(word, version, children, cores, frames)
        }
        None => None,
    }
}

// The sizes that the five fields of a first record say.
#[tactic(auto, unfolding(crate::specs::ImageText::named_sizes))]
fn named_sizes(
    word: &[u8],
    version: &[u8],
    children: &[u8],
    cores: &[u8],
    frames: &[u8],
) -> Option<Geometry>
    ensures said { option_map (λ g. key_of g) result
        ≡ Spec.named_sizes word.now version.now children.now cores.now frames.now }
    ensures few { IfSome result (λ g. g.cores ≤ most_text_cores) }
{
    if word == b"llfree".as_slice() {
        sizes_said(version, children, cores, frames)
    } else {
        None
    }
}

// The sizes that these fields say.
#[tactic(auto, unfolding(crate::specs::ImageText::sizes_said))]
fn sizes_said(version: &[u8], children: &[u8], cores: &[u8], frames: &[u8]) -> Option<Geometry>
    ensures said { option_map (λ g. key_of g) result
        ≡ Spec.sizes_said version.now children.now cores.now frames.now }
    ensures few { IfSome result (λ g. g.cores ≤ most_text_cores) }
{
    let children = count_below(children, MOST_CHILDREN + 1)?;
    let cores = count_below(cores, MOST_TEXT_CORES + 1)?;
    let frames = frames_said(version, children, frames)?;
    geometry_with(children, cores, frames)
}

// The frames of a memory of these children.
#[tactic(auto, unfolding(crate::specs::ImageText::frames_said))]
fn frames_said(version: &[u8], children: u32, frames: &[u8]) -> Option<u32>
    requires { children ≤ most_children }
    ensures { result ≡ Spec.frames_said version.now children frames.now }
{
    if version == b"1".as_slice() {
        if frames.is_empty() {
            Some(CHILD_FRAMES * children)
        } else {
            None
        }
    } else if version == b"2".as_slice() {
        count_below(frames, MOST_FRAMES + 1)
    } else {
        None
    }
}

// The geometry of these sizes, where they lie within the limits.
#[tactic(auto, unfolding(crate::specs::ImageText::key_with))]
fn geometry_with(children: u32, cores: u32, frames: u32) -> Option<Geometry>
    requires children { children ≤ most_children }
    requires cores { cores ≤ most_text_cores }
    ensures said { option_map (λ g. key_of g) result ≡ Spec.key_with children cores frames }
    ensures few { IfSome result (λ g. g.cores ≤ most_text_cores) }
{
    match Geometry::with_frames(children, cores, frames) {
        Ok(geometry) => Some(geometry),
        Err(_) => None,
    }
}
