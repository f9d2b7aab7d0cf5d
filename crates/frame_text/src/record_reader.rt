//! The records of a text, one after another.

ghost use Rattle.std.specs.Prelude.{◌≡◌, ◌∷◌, [], false, true, IfOk, IfErr, IsErr};
ghost use Rattle.std.specs.Result.{is_err};
ghost use Rattle.csv.specs.Records.{fields_of};
ghost use Rattle.frame_text.specs.Records.{IsReading, records_left, records_of};

use csv::{ByteRecord, Reader, ReaderBuilder};
use frame_words::Fault;
use std::alloc::Global;
use std::marker::Model;

/// The records that a text still has, without a header and with any number of fields.
/// Once a call was refused memory, each later call is refused too.
#[derive(Drop)]
pub struct RecordReader<'a> {
    reader: Reader<&'a [u8]>,
    ended: bool,
    failed: bool,
}

impl<'a> Model for RecordReader<'a> {
    ghost use Rattle.std.specs.Prelude.{◌≡◌, [], false, if◌then◌else◌};
    ghost use Rattle.frame_text.specs.Records.{IsReading, RecordsLeft, records_left};

    ghost Value = { RecordsLeft };

    ghost view = { λ r. record { rows = if r.ended then [] else records_left r.reader; failed = r.failed } };

    ghost invariant = { λ r. r.ended ≡ false → IsReading r.reader };
}

impl<'a> RecordReader<'a> {
    /// All records of the text.
    #[tactic(auto, using(crate::proofs::Reading::left_first))]
    pub fn new(alloc: Global, text: &'a [u8]) -> RecordReader<'a>
        ensures rows { result.rows ≡ records_of text.now }
        ensures fresh { result.failed ≡ false }
    {
        RecordReader {
            reader: ReaderBuilder::new()
                .has_headers(false)
                .flexible(true)
                .from_reader(alloc, text),
            ended: false,
            failed: false,
        }
    }

    /// Reads the next record into `row`; `false` where none is left.
    pub fn read(&mut self, row: &mut ByteRecord) -> Result<bool, Fault>
        ensures found { IfOk result (λ found.
            found ≡ true → self.old.rows ≡ fields_of row.new ∷ self.new.rows) }
        ensures none { IfOk result (λ found. found ≡ false → self.old.rows ≡ []) }
        ensures fault { IfErr result (λ e. e ≡ Fault.NoMemory) }
        ensures noted { self.new.failed ≡ is_err result }
        ensures stays { self.old.failed ≡ true → IsErr result }
    {
        if self.failed {
            return Err(Fault::NoMemory);
        }
        if self.ended {
            return Ok(false);
        }
        match read_next(&mut self.reader, row) {
            Ok(true) => return Ok(true),
            Ok(false) => {
                self.ended = true;
                return Ok(false);
            }
            Err(fault) => {
                self.ended = true;
                self.failed = true;
                return Err(fault);
            }
        }
    }
}

// Reads the next record of a text.
#[tactic(auto, using(crate::proofs::Reading::left_more, crate::proofs::Reading::left_none))]
fn read_next(reader: &mut Reader<&[u8]>, row: &mut ByteRecord) -> Result<bool, Fault>
    requires { IsReading reader.old }
    ensures found { IfOk result (λ found. found ≡ true → IsReading reader.new
        × (records_left reader.old ≡ fields_of row.new ∷ records_left reader.new)) }
    ensures none { IfOk result (λ found. found ≡ false → records_left reader.old ≡ []) }
    ensures fault { IfErr result (λ e. e ≡ Fault.NoMemory) }
{
    let Ok(found) = reader.read_byte_record(row) else {
        return Err(Fault::NoMemory);
    };
    Ok(found)
}
