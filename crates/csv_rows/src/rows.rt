//! A reader of records.

ghost use Rattle.std.specs.Prelude.{◌≡◌, ℕ, List, [], ◌∷◌, IfOk, OnOk, OnErr, true, ⊤};
ghost use Rattle.std.specs.Bool.{MatchBool};
ghost use Rattle.csv.specs.Reading.{ChangesHeaders, Ready, names_headers};
ghost use Rattle.csv.specs.Records.{fields_of};
ghost use Rattle.csv_rows.specs.Records.{Record, records_of};

use csv::{ByteRecord, Reader, ReaderBuilder};
use std::alloc::Global;
use std::marker::Model;
use tube_io::NoMemory;

/// The records of a text that are still to come. A contract sees the list of them, each a list of
/// fields, which are bytes.
#[derive(Drop)]
pub struct Rows<'a> {
    reader: Reader<&'a [u8]>,
    alloc: Global,
    is_begun: bool,
    is_done: bool,
}

impl<'a> Model for Rows<'a> {
    ghost use Rattle.std.specs.Prelude.{List};
    ghost use Rattle.csv_rows.specs.Records.{Record};
    ghost use Rattle.csv_rows.specs.Left.{rows_unless, IsKept};

    ghost Value = { List Record };

    ghost view = { λ r. rows_unless r.is_done r.reader };

    ghost invariant = { λ r. IsKept r.is_done r.is_begun r.reader };
}

impl<'a> Rows<'a> {
    /// All records of these bytes. Nothing is allocated yet; `next` takes memory as it reads.
    pub fn new(alloc: Global, bytes: &'a [u8]) -> Rows<'a>
        ensures { result ≡ records_of bytes.entry.now }
    {
        let reader = ReaderBuilder::new()
            .flexible(true)
            .from_reader(alloc, bytes);
        Rows {
            reader,
            alloc,
            is_begun: false,
            is_done: false,
        }
    }

    /// Takes the next record into `row`, and answers whether there was one. Where memory is refused, no
    /// further record is given.
    pub fn next(&mut self, row: &mut ByteRecord) -> Result<bool, NoMemory>
        ensures next { IfOk result (λ found. MatchBool found (self.old ≡ fields_of row.new ∷ self.new) (self.old ≡ [])) }
        ensures end { IfOk result (λ found. MatchBool found ⊤ (self.new ≡ [])) }
        ensures stopped { OnErr result (self.new ≡ []) }
    {
        if self.is_done {
            return Ok(false);
        }
        if !self.is_begun {
            if name_no_columns(self.alloc, &mut self.reader).is_err() {
                self.is_done = true;
                return Err(NoMemory);
            }
            self.is_begun = true;
        }
        match self.reader.read_byte_record(row) {
            Ok(true) => return Ok(true),
            Ok(false) => {
                self.is_done = true;
                return Ok(false);
            }
            Err(_) => {
                self.is_done = true;
                return Err(NoMemory);
            }
        }
    }
}

/// Gives the reader a header row of no columns before it reads, so that each row of the text is a record. Left alone, it would keep two
/// copies of the first record, whatever its length.
fn name_no_columns(alloc: Global, reader: &mut Reader<&[u8]>) -> Result<(), NoMemory>
    requires { names_headers reader.old ≡ true }
    ensures { OnOk result (ChangesHeaders reader.old reader.new × Ready reader.new) }
{
    match reader.set_byte_headers(ByteRecord::new(alloc)) {
        Ok(()) => Ok(()),
        Err(_) => Err(NoMemory),
    }
}
