//! The text of an image.

ghost use Rattle.std.specs.Prelude.{◌≡◌, ◌≢◌, ◌++◌, ◌<◌, ◌≤◌, ◌∷◌, [], decimal, codes, true, false};
ghost use Rattle.std.specs.Prelude.{Err, IfErr, IfOk, IsErrOf, Ok, OnOk};
ghost use Rattle.std.specs.Io.KnownBytes.{Appends};
ghost use Rattle.frame_text.specs.Devices.{device_of, has_failed, WritesFront};
ghost use Rattle.std.specs.List.{range_with_len};
ghost use Rattle.csv.specs.Writing.{default_writer, row_text};
ghost use Rattle.frame_words.specs.Geometry.{most_text_cores};
ghost use Rattle.frame_words.specs.Words.{flag};
ghost use Rattle.frame_model.specs.Key.{key_of, tree_count};
ghost use Rattle.frame_core.specs.Image.{key_in};
ghost use Rattle.frame_text.specs.ImageText.{drawn, image_of, picture_of, text_of};
ghost use Rattle.frame_text.specs.ImageText.{HasNoText, rest_row};
ghost use Rattle.frame_text.specs.ImageText.{header_row, child_row, tree_row, core_row};
ghost use Rattle.frame_text.specs.ImageText.{child_rows, tree_rows, core_rows};

use crate::bit_words::{child_bits, digits_of};
use crate::devices::write_out;
use crate::record_writer::RecordWriter;
use crate::watched::Watched;
use frame_core::Image;
use frame_words::{CHILD_FRAMES, Fault, Geometry, MOST_TEXT_CORES};
use itoa::Buffer;
use std::alloc::Global;
use std::io::Write;

/// The text of an image. It reads back as the same image. `BadGeometry` where that has more than 64
/// cores, which no text says.
pub fn image_text(alloc: Global, image: &Image) -> Result<Vec<u8>, Fault>
    ensures text { IfOk result (λ text. text.items ≡ picture_of (drawn image.now)) }
    ensures read_back { IfOk result (λ text. image_of text.items ≡ Ok (drawn image.now)) }
    ensures cores { most_text_cores < image.now.geometry.cores → result ≡ Err Fault.BadGeometry }
    ensures refused { IfErr result (HasNoText (key_in image.now)) }
{
    let geometry = image.geometry();
    if geometry.cores() > MOST_TEXT_CORES {
        return Err(Fault::BadGeometry);
    }
    all_records(alloc, geometry, image)
}

/// Each image of at most 64 cores is what its text says, whether or not there is memory to make that text.
pub fn every_image_reads_back(image: &Image)
    ensures { image.now.geometry.cores ≤ most_text_cores
        → image_of (picture_of (drawn image.now)) ≡ Ok (drawn image.now) }
{
    let _geometry = image.geometry();
}

/// Writes the text of an image, all of it; the text is made before the first byte is written.
/// `BadGeometry` where the image has more than 64 cores.
pub fn write_image<W: Write>(
    alloc: Global,
    output: &mut Watched<W>,
    image: &Image,
) -> Result<(), Fault>
    ensures written { OnOk result (Appends (W.contents (device_of output.old))
        (W.contents (device_of output.new)) (picture_of (drawn image.now))) }
    ensures sound { OnOk result (has_failed output.new ≡ false) }

    // A write failed, and a front of the text was written; else there was no text, and nothing was.
    ensures write_failed { IsErrOf result Fault.WriteFailed → (has_failed output.new ≡ true)
        × WritesFront (W.contents (device_of output.old)) (W.contents (device_of output.new))
        (picture_of (drawn image.now)) }
    ensures untouched { IfErr result (λ e. e ≢ Fault.WriteFailed
        → HasNoText (key_in image.now) e × (output.new ≡ output.old)) }
    ensures cores { most_text_cores < image.now.geometry.cores → result ≡ Err Fault.BadGeometry }
{
    let text = image_text(alloc, image)?;
    write_out(output, text.as_slice())
}

// Writes all records of an image.
#[tactic(auto, unfolding(crate::specs::ImageText::picture_of, crate::specs::ImageText::rows_of))]
fn all_records(alloc: Global, geometry: Geometry, image: &Image) -> Result<Vec<u8>, Fault>
    requires { geometry ≡ image.now.geometry }
    ensures text { IfOk result (λ text. text.items ≡ picture_of (drawn image.now)) }
    ensures fault { IfErr result (λ e. e ≡ Fault.NoMemory) }
{
    let mut writer = RecordWriter::new(alloc);
    writer.add_header(geometry)?;
    writer.add_children(image)?;
    writer.add_trees(image)?;
    writer.add_cores(image)?;
    writer.finish()
}

impl RecordWriter {
    // Adds the first record.
    #[tactic(auto, unfolding(crate::specs::ImageText::header_row))]
    fn add_header(&mut self, geometry: Geometry) -> Result<(), Fault>
        ensures text { OnOk result
            (self.new ≡ self.old ++ row_text default_writer (header_row (key_of geometry))) }
        ensures fault { IfErr result (λ e. e ≡ Fault.NoMemory) }
    {
        let (mut children_text, mut cores_text) = (Buffer::new(), Buffer::new());
        let mut frames_text = Buffer::new();
        let children = children_text.format(geometry.children()).as_bytes();
        let cores = cores_text.format(geometry.cores()).as_bytes();
        if geometry.frames() == CHILD_FRAMES * geometry.children() {
            self.add(&[b"llfree", b"1", children, cores, b""])
        } else {
            let frames = frames_text.format(geometry.frames()).as_bytes();
            self.add(&[b"llfree", b"2", children, cores, frames])
        }
    }

    // Adds the records of all children.
    #[tactic(auto, using(crate::proofs::Writing::text_more))]
    fn add_children(&mut self, image: &Image) -> Result<(), Fault>
        ensures text { OnOk result (self.new ≡ self.old
            ++ text_of (child_rows (key_in image.now) image.now.words
            (range_with_len 0 image.now.geometry.children))) }
        ensures fault { IfErr result (λ e. e ≡ Fault.NoMemory) }
    {
        let geometry = image.geometry();
        for child in 0..geometry.children {
            self.add_child(image, child)?;
        }
        Ok(())
    }

    // Adds the record of a child.
    #[tactic(auto, unfolding(crate::specs::ImageText::child_row))]
    fn add_child(&mut self, image: &Image, child: u32) -> Result<(), Fault>
        requires { child < image.now.geometry.children }
        ensures text { OnOk result (self.new ≡ self.old
            ++ row_text default_writer (child_row (key_in image.now) image.now.words child)) }
        ensures fault { IfErr result (λ e. e ≡ Fault.NoMemory) }
    {
        let (mut number_text, mut free_text) = (Buffer::new(), Buffer::new());
        let number = number_text.format(child).as_bytes();
        let free = free_text.format(image.free(child)).as_bytes();
        let huge = flag_text(image.huge(child));
        let digits = digits_of(&child_bits(image, child));
        self.add(&[b"child", number, free, &huge, &digits])
    }

    // Adds the records of all trees.
    #[tactic(auto, using(crate::proofs::Writing::text_more))]
    fn add_trees(&mut self, image: &Image) -> Result<(), Fault>
        ensures text { OnOk result (self.new ≡ self.old
            ++ text_of (tree_rows (key_in image.now) image.now.words
            (range_with_len 0 (tree_count (key_in image.now))))) }
        ensures fault { IfErr result (λ e. e ≡ Fault.NoMemory) }
    {
        let geometry = image.geometry();
        for tree in 0..geometry.trees() {
            self.add_tree(image, tree)?;
        }
        Ok(())
    }

    // Adds the record of a tree.
    #[tactic(auto, unfolding(crate::specs::ImageText::tree_row))]
    fn add_tree(&mut self, image: &Image, tree: u32) -> Result<(), Fault>
        requires { tree < tree_count (key_in image.now) }
        ensures text { OnOk result (self.new ≡ self.old
            ++ row_text default_writer (tree_row (key_in image.now) image.now.words tree)) }
        ensures fault { IfErr result (λ e. e ≡ Fault.NoMemory) }
    {
        let (mut number_text, mut free_text) = (Buffer::new(), Buffer::new());
        let number = number_text.format(tree).as_bytes();
        let free = free_text.format(image.tree_free(tree)).as_bytes();
        let reserved = flag_text(image.tree_reserved(tree));
        self.add(&[b"tree", number, free, &reserved, b""])
    }

    // Adds the records of all cores.
    fn add_cores(&mut self, image: &Image) -> Result<(), Fault>
        ensures text { OnOk result (self.new ≡ self.old
            ++ text_of (core_rows (key_in image.now) image.now.words
            (range_with_len 0 image.now.geometry.cores))) }
        ensures fault { IfErr result (λ e. e ≡ Fault.NoMemory) }
    {
        let geometry = image.geometry();
        for core in 0..geometry.cores {
            self.add_core(core, image.local_at(core))?;
        }
        Ok(())
    }

    // Adds the record of a core with this reservation.
    #[tactic(auto, unfolding(crate::specs::ImageText::rest_row))]
    fn add_core(&mut self, core: u32, rest: Option<(u32, u32)>) -> Result<(), Fault>
        ensures text { OnOk result
            (self.new ≡ self.old ++ row_text default_writer (rest_row core rest)) }
        ensures fault { IfErr result (λ e. e ≡ Fault.NoMemory) }
    {
        let mut number_text = Buffer::new();
        let number = number_text.format(core).as_bytes();
        match rest {
            Some((tree, free)) => {
                let (mut tree_text, mut free_text) = (Buffer::new(), Buffer::new());
                let tree = tree_text.format(tree).as_bytes();
                let free = free_text.format(free).as_bytes();
                self.add(&[b"core", number, tree, free, b""])
            }
            None => self.add(&[b"core", number, b"", b"", b""]),
        }
    }
}

// A flag as its digit.
#[tactic(auto, using(std::proofs::lemmas::Fmt::decimal_digit))]
fn flag_text(up: bool) -> [u8; 1]
    ensures { result ≡ decimal (flag up) }
{
    if up { [b'1'] } else { [b'0'] }
}
