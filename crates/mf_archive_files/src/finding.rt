//! The lines that are to be moved, found before anything is made.

ghost use Rattle.std.specs.Prelude.{◌≡◌, List, Some, false, IfOk, IfErr, MatchOption};
ghost use Rattle.mf_base.specs.declared.fault.Fault.TheVariants.{F20};
ghost use Rattle.sqlite.specs.Held.{state};
ghost use Rattle.sqlite.specs.Order.{Row};
ghost use Rattle.sqlite.specs.State.{HasCleanDisk};
ghost use Rattle.mf_model.specs.Institution.{Institution, JournalLine};
ghost use Rattle.mf_store_schema.specs.Schemas.{IsUnchangedUnder};
ghost use Rattle.mf_store_journal.specs.Reading.{IsThird};
ghost use Rattle.mf_store_journal.specs.Written.{DaysRise};
ghost use Rattle.mf_store_journal.specs.declared.journal.Journal.{Journal};
ghost use Rattle.mf_store_noted.specs.Tabled.{IsTabled};
ghost use Rattle.mf_store_archive.specs.Archived.{archived};
ghost use Rattle.mf_store_archive.specs.Writing.{KeepsLinesOf};
ghost use Rattle.mf_archive_files.specs.Finding.{IsFirstDay, IsFoundFor, are_lines, is_day_up_to};

use mf_base::{Day, Fault};
use mf_journal::Head;
use mf_store_journal::{Journal, kept_row, read_journal, rows_after};
use mf_store_told::narrow;
use sqlite::{Alter, Connection, Row};

/// Why no line was moved.
#[derive(Clone, Copy)]
pub enum Unmoved {
    /// The institution keeps no journal.
    NoJournal,
    /// No line is of the day or an earlier one.
    NoLines,
    /// The day isn't closed: it is the business day or a later one.
    NotClosed,
    /// Something stands at the archive's path.
    Taken,
    /// No file can be made at the archive's path.
    NoPlace,
    /// Nothing was made.
    Failed(Fault),
    /// An archive was made, which may have some of the lines.
    Begun(Fault),
}

/// The business day of the first of a journal's rows, and none where there is no row. F20 where it is that of no line.
fn first_day(rows: &[Row]) -> Result<Option<u64>, Fault>
    ensures day { IfOk result (λ day. IsFirstDay rows.now day) }
    ensures gives_up { IfErr result (λ fault. fault ≡ F20) }
{
    let Some(row) = rows.first() else {
        return Ok(None);
    };
    match kept_row(row) {
        Some(kept) => Ok(Some(kept.row.day)),
        None => Err(Fault::F20),
    }
}

/// Whether the first line, if there is one, is of a business day or an earlier one.
fn is_up_to(first: Option<u64>, day: u32) -> bool
    ensures { result ≡ is_day_up_to day first }
{
    match first {
        Some(first) => first <= u64::from(day),
        None => false,
    }
}

/// Whether a line of the journal that begins here is of a business day or an earlier one: then the first is, since days
/// don't go back. The error is F20.
fn has_lines_up_to<S: Alter>(
    file: &mut Connection<S>,
    begins: Head,
    day: u32,
) -> Result<bool, Fault>
    requires alone { file.old.in_transaction ≡ false }
    ensures kept { IsUnchangedUnder IsThird (state S.Store file.old) (state S.Store file.new) }
    ensures has { HasCleanDisk (state S.Store file.new) → (lines : List JournalLine)
        → KeepsLinesOf begins lines (state S.Store file.old) → DaysRise begins.day lines
        → IfOk result (λ some. some ≡ are_lines (archived day lines)) }
    ensures gives_up { IfErr result (λ fault. fault ≡ F20) }
    ensures mode { file.new.in_transaction ≡ false }
{
    let number = narrow(begins.number)?;
    let rows = rows_after(file, number)?;
    let first = first_day(&rows)?;
    Ok(is_up_to(first, day))
}

/// A journal, where it has lines of a business day or earlier ones and that day is before this business day.
fn closed_lines(journal: Journal, has_lines: bool, today: Day, day: Day) -> Result<Journal, Unmoved>
    ensures { (lines : List JournalLine) → has_lines ≡ are_lines (archived day lines)
        → IsFoundFor day today journal lines result }
{
    if !has_lines {
        Err(Unmoved::NoLines)
    } else if day.number() < today.number() {
        Ok(journal)
    } else {
        Err(Unmoved::NotClosed)
    }
}

/// The journal of a file, where it has lines of a business day or earlier ones, and that day is before this business
/// day. The error tells what isn't so; nothing is changed.
pub fn first_lines<S: Alter>(
    file: &mut Connection<S>,
    today: Day,
    day: Day,
) -> Result<Journal, Unmoved>
    requires alone { file.old.in_transaction ≡ false }
    ensures kept { IsUnchangedUnder IsThird (state S.Store file.old) (state S.Store file.new) }
    ensures found { HasCleanDisk (state S.Store file.new) → (journal : Journal) (i : Institution)
        (lines : List JournalLine) → IsTabled S.Store (Some journal) file.old i → i.journal ≡ Some lines
        → IsFoundFor day today journal lines result }
    ensures mode { file.new.in_transaction ≡ false }
{
    let journal = match read_journal(file) {
        Ok(Some(journal)) => journal,
        Ok(None) | Err(_) => return Err(Unmoved::Failed(Fault::F20)),
    };
    match has_lines_up_to(file, journal.begins, day.number()) {
        Ok(has_lines) => closed_lines(journal, has_lines, today, day),
        Err(fault) => Err(Unmoved::Failed(fault)),
    }
}
