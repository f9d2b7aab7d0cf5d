//! A text in the making, record by record.

ghost use Rattle.std.specs.Prelude.{◌≡◌, ◌++◌, [], map, IfOk, IfErr, OnOk};
ghost use Rattle.csv.specs.Records.{fields_of};
ghost use Rattle.csv.specs.Writing.{default_writer, row_text};

use csv::{ByteRecord, Writer, WriterBuilder};
use frame_words::Fault;
use std::alloc::Global;
use std::marker::Model;

/// A text in the making; each record of it is written by csv's defaults and ends in a line feed.
/// Once a call was refused memory, each later call is refused too.
#[derive(Drop)]
pub struct RecordWriter {
    writer: Writer<Vec<u8>>,
    failed: bool,
}

impl Model for RecordWriter {
    ghost use Rattle.std.specs.Prelude.{◌≡◌, List, ℕ, Some, [], false, unwrap_or};
    ghost use Rattle.csv.specs.Writing.{text_written};
    ghost use Rattle.frame_text.specs.Records.{IsBetween};

    ghost Value = { List ℕ };

    ghost view = { λ w. unwrap_or (text_written (λ v. Some v.items) w.writer) [] };

    ghost invariant = { λ w. w.failed ≡ false → IsBetween w.writer };
}

impl RecordWriter {
    /// An empty text.
    pub fn new(alloc: Global) -> RecordWriter
        ensures { result ≡ [] }
    {
        RecordWriter {
            writer: WriterBuilder::new().from_writer(Vec::new(alloc)),
            failed: false,
        }
    }

    /// Adds a record.
    pub fn add(&mut self, fields: &[&[u8]]) -> Result<(), Fault>
        ensures text { OnOk result
            (self.new ≡ self.old ++ row_text default_writer (map (λ f. f.now) fields.now)) }
        ensures fault { IfErr result (λ e. e ≡ Fault.NoMemory) }
    {
        if self.failed {
            return Err(Fault::NoMemory);
        }
        match self.writer.write_fields(fields) {
            Ok(()) => Ok(()),
            Err(_) => {
                self.failed = true;
                Err(Fault::NoMemory)
            }
        }
    }

    /// Adds a record that is there as one.
    pub fn add_record(&mut self, row: &ByteRecord) -> Result<(), Fault>
        ensures text { OnOk result
            (self.new ≡ self.old ++ row_text default_writer (fields_of row.now)) }
        ensures fault { IfErr result (λ e. e ≡ Fault.NoMemory) }
    {
        if self.failed {
            return Err(Fault::NoMemory);
        }
        match self.writer.write_byte_record(row) {
            Ok(()) => Ok(()),
            Err(_) => {
                self.failed = true;
                Err(Fault::NoMemory)
            }
        }
    }

    /// The whole text.
    pub fn finish(self) -> Result<Vec<u8>, Fault>
        ensures text { IfOk result (λ text. text.items ≡ self) }
        ensures fault { IfErr result (λ e. e ≡ Fault.NoMemory) }
    {
        if self.failed {
            return Err(Fault::NoMemory);
        }
        match self.writer.into_inner() {
            Ok(text) => Ok(text),
            Err(_) => Err(Fault::NoMemory),
        }
    }
}
