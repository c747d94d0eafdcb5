//! The lines of a sheet, the record of each result begun before any line is answered.

ghost use Rattle.std.specs.Prelude.{◌≡◌, IfOk, IfErr};

use csv::ByteRecord;
use mf_base::Fault;
use mf_sheet_lines::{BegunRecord, SheetLine, SheetRow};
use std::alloc::Global;
use std::marker::Model;

/// A line of a sheet: its fields, what they ask for, and the record of its result up to the result. Contracts see the
/// fields.
#[derive(Drop)]
pub(crate) struct BegunRow {
    fields: ByteRecord,
    line: SheetLine,
    record: BegunRecord,
}

impl Model for BegunRow {
    ghost use Rattle.std.specs.Prelude.{◌≡◌, ℕ, List};
    ghost use Rattle.csv.specs.Records.{fields_of};
    ghost use Rattle.mf_sheet_lines.specs.Lines.{sheet_line_of, IsLineInRange};
    ghost use Rattle.mf_sheet_lines.specs.Results.{begun_text};

    ghost Value = { List (List ℕ) };

    ghost view = { λ row. fields_of row.fields };

    ghost invariant = { λ row. (row.line ≡ sheet_line_of (fields_of row.fields))
        × (IsLineInRange row.line × (row.record ≡ begun_text (fields_of row.fields))) };
}

impl BegunRow {
    ghost use Rattle.std.specs.Prelude.{◌≡◌, IfOk, IfErr};
    ghost use Rattle.mf_sheet_lines.specs.Lines.{sheet_line_of, IsLineInRange};
    ghost use Rattle.mf_sheet_lines.specs.Results.{begun_text};

    /// The line with its record begun. The only error is `Fault::F20`, out of memory.
    fn begin(alloc: Global, row: SheetRow) -> Result<BegunRow, Fault>
        ensures ok { IfOk result (λ begun. begun ≡ row) }
        ensures err { IfErr result (λ fault. fault ≡ Fault.F20) }
    {
        let (fields, line) = row.into_parts();
        let record = BegunRecord::new(alloc, &fields)?;
        Ok(BegunRow {
            fields,
            line,
            record,
        })
    }

    /// What the line asks for, and its record up to the result.
    pub(crate) fn into_parts(self) -> (SheetLine, BegunRecord)
        ensures line { result.0 ≡ sheet_line_of self }
        ensures in_range { IsLineInRange result.0 }
        ensures record { result.1 ≡ begun_text self }
    {
        let BegunRow {
            fields: _fields,
            line: asked,
            record: begun,
        } = self;
        (asked, begun)
    }
}

/// The lines of a sheet with their records begun. The only error is `Fault::F20`, out of memory.
pub(crate) fn begin_rows(alloc: Global, rows: Vec<SheetRow>) -> Result<Vec<BegunRow>, Fault>
    ensures ok { IfOk result (λ begun. begun.items ≡ rows.items) }
    ensures err { IfErr result (λ fault. fault ≡ Fault.F20) }
{
    let mut begun = Vec::new(alloc);
    for row in rows {
        begun.push(BegunRow::begin(alloc, row)?)?;
    }
    Ok(begun)
}
