//! The records of a sheet.

ghost use Rattle.std.specs.Prelude.{◌≡◌, ℕ, List, IfOk, IfErr, map};
ghost use Rattle.csv.specs.Reading.{default_config, records, strip_bom};
ghost use Rattle.csv.specs.Records.{fields_of};
ghost use Rattle.mf_sheet_lines.specs.Causes.{IsOfNoRecord};

use csv::{ByteRecord, ErrorKind, ReaderBuilder};
use std::alloc::Global;

/// Every record of a text, however many fields it has. A byte order mark at its start is no part of the first. No
/// record is the cause of an error: it tells that memory ran out.
pub fn records(alloc: Global, text: &[u8]) -> Result<Vec<ByteRecord>, ErrorKind>
    ensures ok { IfOk result (λ v. map fields_of v.items ≡ records default_config (strip_bom text.now)) }
    ensures err { IfErr result IsOfNoRecord }
{
    let reader = ReaderBuilder::new()
        .has_headers(false)
        .flexible(true)
        .from_reader(alloc, text);
    let mut records = Vec::new(alloc);
    for read in reader.into_byte_records() {
        let record = match read {
            Ok(record) => record,
            Err(error) => return Err(error.into_kind()),
        };
        if records.push(record).is_err() {
            return Err(ErrorKind::OutOfMemory);
        }
    }
    Ok(records)
}
