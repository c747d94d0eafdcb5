//! The report of arrears that a member of staff is shown, as text.

ghost use Rattle.std.specs.Prelude.{◌≤◌, ◌^◌, List, sum_by, IfOk, IfSome};
ghost use Rattle.mf_arrears.specs.Line.{OfficeLine};
ghost use Rattle.mf_desk.specs.Answers.{Asks};
ghost use Rattle.microloan_commands.specs.Reported.{lines_told, report_told, bytes_of};

use mf_arrears::{Totals, report_text};
use mf_base::Fault;
use mf_desk::arrears_lines;
use mf_model::{ArrearsList, InstitutionStore};
use mf_office::Caller;
use std::alloc::Global;

/// The lines of the report, or None where they have more loans than a report sums, which no institution's have.
fn lines_to_sum<S: InstitutionStore>(
    alloc: Global,
    store: &mut S,
    caller: Caller,
) -> Result<Option<ArrearsList>, Fault>
    ensures lines { Asks S.InstitutionStore (lines_told caller) store.old store.new result }
    ensures few { IfOk result
        (λ found. IfSome found (λ (lines : List OfficeLine). sum_by (λ (line : OfficeLine). line.loans) lines
        ≤ 10 ^ 10)) }
{
    let lines = arrears_lines(alloc, store, caller)?;
    if Totals::of(lines.as_slice()).is_none() {
        return Ok(None);
    }
    Ok(Some(lines))
}

/// The text of the arrears report that a caller sees: a line for its office and for each below it, by number, and the
/// line of all. F2 where there is no such member of staff, and F20 when out of memory or for a fault of the store;
/// nothing is changed.
pub fn report<S: InstitutionStore>(
    alloc: Global,
    store: &mut S,
    caller: Caller,
) -> Result<String, Fault>
    ensures { Asks S.InstitutionStore (report_told caller) store.old store.new (bytes_of result) }
{
    match lines_to_sum(alloc, store, caller)? {
        None => Err(Fault::F20),
        Some(lines) => report_text(alloc, lines.as_slice()),
    }
}
