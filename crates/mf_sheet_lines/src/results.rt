//! The sheet of results.

ghost use Rattle.std.specs.Prelude.{◌≡◌, ◌≤◌, ◌⊎◌, ◌<◌, ◌++◌, [], ◌∷◌, List, ℕ, Err, IfOk, IfErr, get_or, length, map};
ghost use Rattle.csv.specs.Records.{fields_of};
ghost use Rattle.csv.specs.Writing.{default_writer, row_text};
ghost use Rattle.mf_wire_lines.specs.Replies.{fault_name};
ghost use Rattle.mf_sheet_lines.specs.Sheets.{longest, sheet_rows_of};
ghost use Rattle.mf_sheet_lines.specs.Results.{begun_text, heading, records_text, result_text};

use crate::sheet::sheet_rows;
use csv::{ByteRecord, Error, WriterBuilder};
use mf_base::Fault;
use std::alloc::Global;
use std::marker::Model;

/// What became of a line.
#[derive(Clone, Copy, PartialEq, Eq)]
pub enum SheetResult {
    /// Its repayment was entered.
    Entered,
    /// Its repayment had been entered before, and nothing is changed.
    Repeated,
    /// It was refused, and nothing is changed.
    Refused(Fault),
}

/// The number of a refusal, as a text.
fn fault_name(fault: Fault) -> &'static str
    ensures { result.now ≡ fault_name fault }
{
    match fault {
        Fault::F1 => "F1",
        Fault::F2 => "F2",
        Fault::F3 => "F3",
        Fault::F4 => "F4",
        Fault::F5 => "F5",
        Fault::F6 => "F6",
        Fault::F7 => "F7",
        Fault::F8 => "F8",
        Fault::F9 => "F9",
        Fault::F10 => "F10",
        Fault::F11 => "F11",
        Fault::F12 => "F12",
        Fault::F13 => "F13",
        Fault::F14 => "F14",
        Fault::F15 => "F15",
        Fault::F16 => "F16",
        Fault::F17 => "F17",
        Fault::F18 => "F18",
        Fault::F19 => "F19",
        Fault::F20 => "F20",
    }
}

impl SheetResult {
    ghost use Rattle.std.specs.Prelude.{◌≡◌, ◌≤◌, length};
    ghost use Rattle.mf_sheet_lines.specs.Results.{result_name};

    /// Its name: `entered`, `repeated`, or the refusal's number.
    pub fn name(self) -> &'static str
        ensures value { result.now ≡ result_name self }
        ensures short { length result.now ≤ 8 }
    {
        match self {
            SheetResult::Entered => "entered",
            SheetResult::Repeated => "repeated",
            SheetResult::Refused(fault) => fault_name(fault),
        }
    }
}

/// The field at a place, as it stands, or an empty one where there is none.
fn field_at(row: &ByteRecord, place: usize) -> &[u8]
    ensures { result.now ≡ get_or (fields_of row.now) place [] }
{
    match row.get(place) {
        Some(field) => field,
        None => b"",
    }
}

/// The record of some fields, as `csv` writes it.
fn text_of_fields(alloc: Global, fields: &[&[u8]]) -> Result<Vec<u8>, Error>
    ensures { IfOk result (λ text. text.items ≡ row_text default_writer (map (λ f. f.now) fields.now)) }
{
    let mut writer = WriterBuilder::new().from_writer(Vec::new(alloc));
    writer.write_fields(fields)?;
    match writer.into_inner() {
        Ok(text) => Ok(text),
        Err(error) => Err(error.into_error()),
    }
}

/// The record of a line's result, without its result and its end. The only error is `Fault::F20`, out of memory.
fn begun(alloc: Global, row: &ByteRecord) -> Result<Vec<u8>, Fault>
    ensures ok { IfOk result (λ text. text.items ≡ begun_text (fields_of row.now)) }
    ensures err { IfErr result (λ fault. fault ≡ Fault.F20) }
{
    let fields = [
        field_at(row, 0),
        field_at(row, 1),
        field_at(row, 2),
        field_at(row, 3),
        b"",
    ];
    let Ok(mut text) = text_of_fields(alloc, &fields) else {
        return Err(Fault::F20);
    };
    let _end = text.pop();
    Ok(text)
}

/// The most bytes that a result and the end of its record take.
const ROOM: usize = 9;

/// The record of a line's result up to the result, with room for any result. So the record can be ended without
/// memory, once the line was answered. Contracts see its bytes.
#[derive(Drop)]
pub struct BegunRecord {
    text: Vec<u8>,
}

impl Model for BegunRecord {
    ghost use Rattle.std.specs.Prelude.{ℕ, List, ◌+◌, ◌≤◌, vec_len, vec_capacity};

    ghost Value = { List ℕ };

    ghost view = { λ begun. begun.text.items };

    ghost invariant = { λ begun. vec_len begun.text + 9 ≤ vec_capacity begun.text };
}

impl BegunRecord {
    ghost use Rattle.std.specs.Prelude.{◌≡◌, ◌++◌, ◌∷◌, [], IfOk, IfErr, List, ℕ};
    ghost use Rattle.csv.specs.Records.{fields_of};
    ghost use Rattle.mf_sheet_lines.specs.Results.{begun_text, record_text, result_name};

    /// The record of a line with these fields. The only error is `Fault::F20`, out of memory.
    pub fn new(alloc: Global, row: &ByteRecord) -> Result<BegunRecord, Fault>
        ensures ok { IfOk result (λ begun. begun ≡ begun_text (fields_of row.now)) }
        ensures err { IfErr result (λ fault. fault ≡ Fault.F20) }
    {
        let mut text = begun(alloc, row)?;
        text.reserve(ROOM)?;
        Ok(BegunRecord { text })
    }

    /// The whole record, with this result. It takes no memory.
    pub fn end_with(self, outcome: SheetResult) -> Vec<u8>
        ensures text { result.items ≡ self ++ (result_name outcome ++ 10 ∷ []) }
        ensures whole { (fields : List (List ℕ)) → self ≡ begun_text fields → result.items
            ≡ record_text fields outcome }
    {
        let BegunRecord { text: begun } = self;
        let mut text = begun;
        let Ok(()) = text.extend_from_slice(outcome.name().as_bytes()) else {
            unreachable!()
        };
        let Ok(()) = text.extend_from_slice(b"\n") else {
            unreachable!()
        };
        text
    }
}

/// The first record of a sheet of results, which names its columns.
pub fn heading() -> &'static [u8]
    ensures { result.now ≡ heading }
{
    b"receipt,loan,date,amount,result\n"
}

fn text_of_records(
    alloc: Global,
    rows: &[ByteRecord],
    results: &[SheetResult],
) -> Result<Vec<u8>, Fault>
    requires { length results.now ≤ length rows.now }
    ensures ok { IfOk result (λ text. text.items ≡ heading ++ records_text (map fields_of rows.now) results.now) }
    ensures err { IfErr result (λ fault. fault ≡ Fault.F20) }
{
    let mut text = Vec::from_slice(alloc, heading())?;
    for (place, outcome) in results.iter().enumerate() {
        let begun = BegunRecord::new(alloc, &rows[place])?;
        text.extend_from_slice(begun.end_with(*outcome).as_slice())?;
    }
    Ok(text)
}

/// The sheet of the results of a sheet's lines: a record that names the columns, and one for each result, with the
/// first four fields of its line. `Fault::F1` is for a sheet that is too long, `Fault::F20` when out of memory.
pub fn result_sheet(alloc: Global, bytes: &[u8], results: &[SheetResult]) -> Result<Vec<u8>, Fault>
    requires { length results.now ≤ length (sheet_rows_of bytes.now) }
    ensures long { longest < length bytes.now → result ≡ Err Fault.F1 }
    ensures ok { IfOk result (λ text. text.items ≡ result_text bytes.now results.now) }
    ensures refusal { IfErr result (λ fault. (fault ≡ Fault.F20)
        ⊎ ((fault ≡ Fault.F1) × (longest < length bytes.now))) }
{
    let rows = sheet_rows(alloc, bytes)?;
    text_of_records(alloc, rows.as_slice(), results)
}
