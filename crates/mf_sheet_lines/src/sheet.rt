//! A whole sheet.

ghost use Rattle.std.specs.Prelude.{◌≡◌, ◌⊎◌, ◌<◌, Err, IfOk, IfErr, length, map};
ghost use Rattle.csv.specs.Records.{fields_of};
ghost use Rattle.mf_sheet_lines.specs.Sheets.{longest, below_names, sheet_rows_of};

use crate::line::{SheetLine, names_columns, read_line};
use crate::records::records;
use csv::ByteRecord;
use mf_base::Fault;
use std::alloc::Global;
use std::marker::Model;

/// The longest sheet that is read, in bytes.
pub const LONGEST: usize = 1_048_576;

/// A line of a sheet: its fields as they stand, and what they ask for. Contracts see the fields.
#[derive(Drop)]
pub struct SheetRow {
    fields: ByteRecord,
    line: SheetLine,
}

impl Model for SheetRow {
    ghost use Rattle.std.specs.Prelude.{◌≡◌, ℕ, List};
    ghost use Rattle.csv.specs.Records.{fields_of};
    ghost use Rattle.mf_sheet_lines.specs.Lines.{sheet_line_of, IsLineInRange};

    ghost Value = { List (List ℕ) };

    ghost view = { λ row. fields_of row.fields };

    ghost invariant = { λ row. (row.line ≡ sheet_line_of (fields_of row.fields)) × IsLineInRange row.line };
}

impl SheetRow {
    ghost use Rattle.std.specs.Prelude.{◌≡◌, IfOk, IfErr};
    ghost use Rattle.csv.specs.Records.{fields_of};
    ghost use Rattle.mf_sheet_lines.specs.Lines.{sheet_line_of, IsLineInRange};

    /// Reads a line of these fields. The only error is `Fault::F20`, out of memory.
    fn read(alloc: Global, fields: ByteRecord) -> Result<SheetRow, Fault>
        ensures ok { IfOk result (λ row. row ≡ fields_of fields) }
        ensures err { IfErr result (λ fault. fault ≡ Fault.F20) }
    {
        let line = read_line(alloc, &fields)?;
        Ok(SheetRow { fields, line })
    }

    /// What the line asks for.
    pub fn line(&self) -> &SheetLine
        ensures value { result.now ≡ sheet_line_of self.now }
        ensures in_range { IsLineInRange result.now }
    {
        &self.line
    }

    /// The fields as they stand, and what they ask for.
    pub fn into_parts(self) -> (ByteRecord, SheetLine)
        ensures fields { fields_of result.0 ≡ self }
        ensures line { result.1 ≡ sheet_line_of self }
        ensures in_range { IsLineInRange result.1 }
    {
        let SheetRow {
            fields: record_of,
            line: asked,
        } = self;
        (record_of, asked)
    }
}

/// The lines of a sheet. Contracts see the list of their fields.
#[derive(Drop)]
pub struct Sheet {
    rows: Vec<SheetRow>,
}

impl Model for Sheet {
    ghost use Rattle.std.specs.Prelude.{ℕ, List};

    ghost Value = { List (List (List ℕ)) };

    ghost view = { λ sheet. sheet.rows.items };
}

impl Sheet {
    ghost use Rattle.std.specs.Prelude.{◌≡◌};

    /// The lines, in their order.
    pub fn rows(&self) -> &[SheetRow]
        ensures { result.now ≡ self.now }
    {
        self.rows.as_slice()
    }

    /// Gives the lines back.
    pub fn into_rows(self) -> Vec<SheetRow>
        ensures { result.items ≡ self }
    {
        let Sheet { rows: all } = self;
        all
    }
}

/// The records without a first one that names the columns.
fn below_names(rows: Vec<ByteRecord>) -> Vec<ByteRecord>
    ensures { map fields_of result.items ≡ below_names (map fields_of rows.items) }
{
    let mut rows = rows;
    let is_named = match rows.first() {
        Some(first) => names_columns(first),
        None => false,
    };
    if is_named {
        let _names = rows.remove(0);
    }
    rows
}

/// The fields of each line of a sheet. `Fault::F1` is for a sheet that is too long, `Fault::F20` when out of memory.
pub fn sheet_rows(alloc: Global, bytes: &[u8]) -> Result<Vec<ByteRecord>, Fault>
    ensures long { longest < length bytes.now → result ≡ Err Fault.F1 }
    ensures rows { IfOk result (λ rows. map fields_of rows.items ≡ sheet_rows_of bytes.now) }
    ensures refusal { IfErr result (λ fault. (fault ≡ Fault.F20)
        ⊎ ((fault ≡ Fault.F1) × (longest < length bytes.now))) }
{
    if bytes.len() > LONGEST {
        return Err(Fault::F1);
    }
    match records(alloc, bytes) {
        Ok(rows) => Ok(below_names(rows)),
        Err(_) => Err(Fault::F20),
    }
}

fn read_rows(alloc: Global, rows: Vec<ByteRecord>) -> Result<Vec<SheetRow>, Fault>
    ensures ok { IfOk result (λ read. read.items ≡ map fields_of rows.items) }
    ensures err { IfErr result (λ fault. fault ≡ Fault.F20) }
{
    let mut read = Vec::new(alloc);
    for fields in rows {
        read.push(SheetRow::read(alloc, fields)?)?;
    }
    Ok(read)
}

/// The lines of a sheet: its records, without a first one that names the columns. A byte order mark at its start is
/// skipped. `Fault::F1` is for a sheet that is too long, `Fault::F20` when out of memory; what is wrong in a line makes
/// that line bad, and no other.
pub fn read_sheet(alloc: Global, bytes: &[u8]) -> Result<Sheet, Fault>
    ensures long { longest < length bytes.now → result ≡ Err Fault.F1 }
    ensures rows { IfOk result (λ sheet. sheet ≡ sheet_rows_of bytes.now) }
    ensures refusal { IfErr result (λ fault. (fault ≡ Fault.F20)
        ⊎ ((fault ≡ Fault.F1) × (longest < length bytes.now))) }
{
    let rows = sheet_rows(alloc, bytes)?;
    let rows = read_rows(alloc, rows)?;
    Ok(Sheet { rows })
}
