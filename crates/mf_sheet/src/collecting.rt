//! A sheet answered line by line, the result of each written before the next is answered.

ghost use Rattle.std.specs.Prelude.{◌≡◌, ◌≢◌, ◌<◌, ◌≤◌, ℕ, List, Option, IfOk, IfErr, OnOk, length, take, true, false};
ghost use Rattle.std.specs.Io.KnownBytes.{Appends};
ghost use Rattle.mf_sheet_lines.specs.Results.{heading, record_text};
ghost use Rattle.mf_sheet_lines.specs.Sheets.{longest, sheet_rows_of};
ghost use Rattle.mf_sheet.specs.Runs.{AnswersFields, RunsRows, AnswersEach};
ghost use Rattle.mf_wire_lines.specs.Streams.{stream_of};
ghost use Rattle.mf_sheet.specs.Ends.{Ends};

use crate::answering::answer_line;
use crate::begun::{BegunRow, begin_rows};
use mf_base::{Cause, Fault, StreamFault};
use mf_model::InstitutionStore;
use mf_office::Caller;
use mf_sheet_lines::{SheetResult, heading, read_sheet};
use mf_wire_lines::{Sink, WriteFault, put};
use std::alloc::Global;

/// Answers a line and writes the record of its result.
fn collect_row<S: InstitutionStore, W: Sink>(
    alloc: Global,
    store: &mut S,
    told: &[u8],
    caller: &Caller,
    row: BegunRow,
    sink: &mut W,
) -> Result<SheetResult, WriteFault>
    ensures answered { IfOk result (λ r. AnswersFields S.InstitutionStore told.now caller.now store.old row r
        store.new) }
    ensures written { IfOk result (λ r. Appends (W.written sink.old) (W.written sink.new) (record_text row r)) }
    ensures sound { OnOk result (W.faults sink.new ≡ W.faults sink.old) }
    ensures write { IfErr result (λ _. (r : SheetResult) × AnswersFields S.InstitutionStore told.now caller.now
        store.old row r store.new × ((n : ℕ) × (n < length (record_text row r))
        × Appends (W.written sink.old) (W.written sink.new) (take n (record_text row r)))) }
    ensures fault { IfErr result (λ _. W.faults sink.new ≢ W.faults sink.old) }
{
    let (line, begun) = row.into_parts();
    let outcome = answer_line(alloc, store, told, *caller, line);
    let record = begun.end_with(outcome);
    match put(sink, record.as_slice()) {
        Ok(()) => Ok(outcome),
        Err(WriteFault) => Err(WriteFault),
    }
}

/// Whether a result ends the sheet.
fn is_end(outcome: SheetResult) -> bool
    ensures end { result ≡ true → outcome ≡ SheetResult.Refused Fault.F20 }
    ensures goes_on { result ≡ false → outcome ≢ SheetResult.Refused Fault.F20 }
{
    match outcome {
        SheetResult::Refused(Fault::F20) => true,
        _ => false,
    }
}

/// Answers the lines of a sheet whose heading was written.
fn collect_rows<S: InstitutionStore, W: Sink>(
    alloc: Global,
    store: &mut S,
    told: &[u8],
    caller: &Caller,
    rows: Vec<BegunRow>,
    sink: &mut W,
) -> Result<(), StreamFault>
    ensures ends { (before : Option (List ℕ)) → Appends before (W.written sink.old) heading →
        Ends (AnswersEach (AnswersFields S.InstitutionStore told.now caller.now)) store.old store.new (record {
          rows = rows.items;
          sink = record (stream_of W.written W.faults sink.old sink.new) { before = before };
        }) result }
{
    let mut answered = 0u64;
    for row in rows {
        let outcome = match collect_row(alloc, store, told, caller, row, sink) {
            Ok(outcome) => outcome,
            Err(WriteFault) => {
                return Err(StreamFault {
                    answered,
                    cause: Cause::Write,
                });
            }
        };
        if is_end(outcome) {
            return Ok(());
        }
        answered += 1;
    }
    Ok(())
}

/// Answers a collection sheet, which somebody sends, line by line as repayments, and writes the sheet of their results.
/// The first F20 is written and ends the sheet. A journal notes what is told with each repayment.
///
/// A fault says how many results were written whole. `Memory` is reported only before the heading is written, where the
/// sheet can't be read or there is no room for the records of its results: nothing is answered or written. After
/// `Write`, which is reported only where the writer failed in this call, the line whose result was being written is the
/// last that was run, and none was where the heading was being written.
pub fn collect<S: InstitutionStore, W: Sink>(
    alloc: Global,
    store: &mut S,
    told: &[u8],
    caller: Caller,
    bytes: &[u8],
    sink: &mut W,
) -> Result<(), StreamFault>
    requires { length bytes.now ≤ longest }
    ensures ends { Ends (RunsRows S.InstitutionStore told.now caller) store.old store.new (record {
      rows = sheet_rows_of bytes.now;
      sink = stream_of W.written W.faults sink.old sink.new;
    }) result }
{
    let Ok(sheet) = read_sheet(alloc, bytes) else {
        return Err(StreamFault {
            answered: 0,
            cause: Cause::Memory,
        });
    };
    let Ok(rows) = begin_rows(alloc, sheet.into_rows()) else {
        return Err(StreamFault {
            answered: 0,
            cause: Cause::Memory,
        });
    };
    let Ok(()) = put(sink, heading()) else {
        return Err(StreamFault {
            answered: 0,
            cause: Cause::Write,
        });
    };
    collect_rows(alloc, store, told, &caller, rows, sink)
}
