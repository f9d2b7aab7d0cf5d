//! How a text is read as an image.

ghost use Rattle.std.specs.Prelude.{◌≡◌, ◌<◌, ◌≤◌, ◌∷◌, ◌⊎◌, [], ℕ, length, true, false, Ok, Err, Some, None};
ghost use Rattle.std.specs.Prelude.{IfErr, IfOk, IfSome, IsErrOf, OnOk};
ghost use Rattle.std.specs.Bool.{OnTrue, OnFalse};
ghost use Rattle.csv.specs.Records.{fields_of};
ghost use Rattle.frame_core.specs.Image.{key_in};
ghost use Rattle.frame_words.specs.Geometry.{most_text_cores};
ghost use Rattle.frame_model.specs.Key.{key_of};
ghost use Rattle.frame_text.specs.ImageText as Spec;
ghost use Rattle.frame_text.specs.ImageText.{drawn, Explains, ExplainsParts, IsReadingFault};
ghost use Rattle.frame_text.specs.Devices.{device_of, has_failed};

use crate::devices::{MOST_BYTES, read_all};
use crate::fields::five_fields;
use crate::image_header::header_said;
use crate::image_parts::read_fields;
use crate::record_reader::RecordReader;
use crate::watched::Watched;
use csv::ByteRecord;
use frame_core::Image;
use frame_words::{Fault, Geometry};
use std::alloc::Global;
use std::io::Read;

/// Reads a text as an image.
///
/// `BadImage` names the lowest record that is refused or missing.
#[tactic(auto, unfolding(crate::specs::ImageText::image_of, crate::specs::ImageText::image_in, crate::specs::ImageText::image_behind))]
pub fn image_of(alloc: Global, text: &[u8]) -> Result<Image, Fault>
    ensures found { IfOk result (λ image. Spec.image_of text.now ≡ Ok (drawn image)) }
    ensures few { IfOk result (λ image. image.geometry.cores ≤ most_text_cores) }
    ensures refused { IfErr result (λ e. Explains e (Spec.image_of text.now)) }
{
    let mut records = RecordReader::new(alloc, text);
    let mut row = ByteRecord::new(alloc);
    if !records.read(&mut row)? {
        return Err(Fault::BadImage { line: 1 });
    }
    match header_said(&row) {
        Some(geometry) => read_parts(Image::blank(alloc, &geometry)?, &mut records, &mut row),
        None => Err(Fault::BadImage { line: 1 }),
    }
}

/// Reads the image that the reader has left, up to its end.
///
/// `BadImage` names the lowest record that is refused or missing.
pub fn read_image<R: Read>(alloc: Global, input: &mut Watched<R>) -> Result<Image, Fault>
    ensures found { IfOk result (λ image. IfSome (R.remaining (device_of input.old)) (λ text.
        Spec.image_of text ≡ Ok (drawn image))) }
    ensures sound { OnOk result (has_failed input.new ≡ false) }

    // The reader failed, or its text is too long.
    ensures read_failed { has_failed input.new ≡ true → IsErrOf result Fault.ReadFailed }
    ensures too_long { IsErrOf result Fault.ReadFailed → (has_failed input.new ≡ true)
        ⊎ IfSome (R.remaining (device_of input.old)) (λ text. MOST_BYTES < length text) }

    // A record is refused or missing, the lowest of all that the reader had left.
    ensures bad_image { (line : ℕ) → IsErrOf result (Fault.BadImage line)
        → IfSome (R.remaining (device_of input.old)) (λ text. Spec.image_of text ≡ Err line) }
    ensures others { IfErr result (λ e. IsReadingFault e) }
{
    let text = read_all(alloc, input)?;
    image_of(alloc, text.as_slice())
}

// Reads all parts of an image, of which the first is the second record.
fn read_parts(
    mut image: Image,
    records: &mut RecordReader,
    row: &mut ByteRecord,
) -> Result<Image, Fault>
    ensures found { IfOk result (λ made.
        Spec.parts_from (key_in image) 0 image.words records.old.rows ≡ Ok made.words) }
    ensures geometry { IfOk result (λ made. made.geometry ≡ image.geometry) }
    ensures refused { IfErr result (λ e.
        ExplainsParts e (Spec.parts_from (key_in image) 0 image.words records.old.rows)) }
{
    let parts = part_count(image.geometry());
    let mut part = 0;
    loop {
        let line = part + 2;
        if !records.read(row)? {
            return if part == parts {
                Ok(image)
            } else {
                Err(Fault::BadImage { line })
            };
        }
        if !read_part(&mut image, part, row) {
            return Err(Fault::BadImage { line });
        }
        part += 1;
    }
}

// How many parts an image has: its children, its trees and its cores.
fn part_count(geometry: Geometry) -> u32
    ensures { result ≡ Spec.part_count (key_of geometry) }
{
    geometry.children() + geometry.trees() + geometry.cores()
}

// Writes a part of the image as a record says it; `false` where the record is no such part.
#[tactic(auto, unfolding(crate::specs::ImageText::part_with))]
fn read_part(image: &mut Image, part: u32, row: &ByteRecord) -> bool
    ensures read { OnTrue result
        (Spec.part_with (key_in image.old) part image.old.words (fields_of row.now)
        ≡ Some image.new.words) }
    ensures refused { OnFalse result
        (Spec.part_with (key_in image.old) part image.old.words (fields_of row.now) ≡ None) }
    ensures geometry { image.new.geometry ≡ image.old.geometry }
    ensures last { OnTrue result (part < Spec.part_count (key_in image.old)) }
{
    match five_fields(row) {
        Some((word, number, third, fourth, fifth)) => {
            read_fields(image, part, word, number, third, fourth, fifth)
        }
        None => false,
    }
}
