//! Images of a memory, rebuilt, reported and opened again. Their texts, and the devices that these come through, are
//! `frame_text`'s; this crate names its public items too, but for records, numbers and bit words.
#![tactic(auto)]

mod child_numbers;
mod fragmentation;
mod held_count;
mod recovery;
mod reopenings;
mod report_writer;
mod totals;

pub use fragmentation::report;
pub use frame_text::{
    MOST_BYTES, Watched, every_image_reads_back, image_of, image_text, read_all, read_image,
    write_image, write_out,
};
pub use held_count::held_frames;
pub use recovery::rebuild;
pub use reopenings::reopen;
pub use report_writer::report_text;
pub use totals::Report;
