//! Texts: images of a memory as text, and what stands between a text and the outside: devices that
//! remember a failure, records and numbers.
#![tactic(auto)]

mod bit_words;
mod devices;
mod fields;
mod image_header;
mod image_parts;
mod image_reader;
mod image_writer;
mod numbers;
mod record_reader;
mod record_writer;
mod watched;

pub use bit_words::child_bits;
pub use devices::{MOST_BYTES, read_all, write_out};
pub use fields::field;
pub use image_reader::{image_of, read_image};
pub use image_writer::{every_image_reads_back, image_text, write_image};
pub use numbers::number_below;
pub use record_reader::RecordReader;
pub use record_writer::RecordWriter;
pub use watched::Watched;
