//! The rows of an archive's table, checked.

ghost use Rattle.std.specs.Prelude.{◌≡◌, ◌↔◌, List, ◌∷◌, map, IsTrue, OnErr, IfOk, IfErr, IfSome, IfNone};
ghost use Rattle.mf_journal.specs.Chain.{line_of_row};
ghost use Rattle.mf_journal.specs.Following.{head_of};
ghost use Rattle.mf_journal.specs.declared.following.Head.{Head};
ghost use Rattle.mf_model.specs.Institution.{JournalLine};
ghost use Rattle.mf_store_sql.specs.Numbered.{Filed, shown_filed};
ghost use Rattle.mf_store_journal.specs.Checking.{CanBegin, StopsAt};
ghost use Rattle.mf_store_journal.specs.Rows.{filed_beginning, no_line};
ghost use Rattle.mf_store_archived.specs.Archives.{AreShown, AreRowsOf, IsPart, Tells};

use crate::archive::Archive;
use mf_base::Fault;
use mf_journal::{Head, JournalRow, KeptRow};
use mf_store_journal::{Flaw, kept_row};
use sqlite::Row;

/// Why no archive is made of a file.
#[derive(Clone, Copy)]
pub enum Unread {
    /// It has other tables than an archive, or its first row doesn't say where a journal begins.
    NoArchive,
    /// The first of its lines that doesn't follow on those before it.
    Flawed(Flaw),
    /// Out of memory, or it holds no database.
    Failed(Fault),
}

/// Whether the row has a day and nothing else, as that of where a journal begins.
fn is_beginning(row: JournalRow<'_>) -> bool
    ensures { IsTrue result ↔ line_of_row row.entry ≡ no_line row.entry.day }
{
    let is_unnamed = row.named_office == 0 && row.named_loan == 0;
    let is_unsent = row.office == 0 && row.staff == 0 && row.told.is_empty();
    let is_textless = row.method.is_empty() && row.path.is_empty() && row.body.is_empty();
    is_unnamed && is_unsent && is_textless
}

/// Where the journal stands after a row.
fn head_at(kept: KeptRow<'_>) -> Head
    ensures { result ≡ head_of kept.entry }
{
    let chain = kept.chain;
    Head {
        number: kept.number,
        day: kept.row.day,
        chain,
    }
}

/// Where the journal begins by its first row; none where no beginning has it.
fn beginning_in(row: &Row) -> Option<Head>
    ensures some { IfSome result (λ head. shown_filed (filed_beginning head) ≡ row.now) }
    ensures can { IfSome result CanBegin }
    ensures none { IfNone result ((h : Head) → CanBegin h → ¬ (shown_filed (filed_beginning h) ≡ row.now)) }
{
    let kept = kept_row(row)?;
    if !is_beginning(kept.row) {
        return None;
    }
    Some(head_at(kept))
}

/// Where the journal stands after rows, if each follows on; else what is wrong with the first that doesn't.
fn follow_rows(head: Head, rows: &[Row]) -> Result<Head, Flaw>
    ensures follow { IfOk result (AreShown head rows.now) }
    ensures flawed { (lines : List Filed) → rows.now ≡ map shown_filed lines
        → IfErr result (λ flaw. StopsAt head lines flaw) }
{
    let mut now = head;
    for place in 0..rows.len() {
        let Some(kept) = kept_row(&rows[place]) else {
            return Err(Flaw::NoLine(now.number));
        };
        match now.follow(kept) {
            Ok(next) => now = next,
            Err(flaw) => return Err(Flaw::Broken(kept.number, flaw)),
        }
    }
    Ok(now)
}

/// Where the journal begins and stands of which these are the first row and the others; else why they are those of
/// none.
fn check_from(first: &Row, rest: &[Row]) -> Result<(Head, Head), Unread>
    ensures whole { IfOk result (λ found. AreRowsOf found.0 found.1 (first.now ∷ rest.now)) }
    ensures none { (begins : Head) (lines : List JournalLine) → Tells begins lines (first.now ∷ rest.now)
        → OnErr result ⊥ }
{
    let Some(begins) = beginning_in(first) else {
        return Err(Unread::NoArchive);
    };
    match follow_rows(begins, rest) {
        Ok(ends) => Ok((begins, ends)),
        Err(flaw) => Err(Unread::Flawed(flaw)),
    }
}

/// Where the journal begins and stands of which these are the rows; else why they are those of none.
fn check_rows(rows: &[Row]) -> Result<(Head, Head), Unread>
    ensures whole { IfOk result (λ found. AreRowsOf found.0 found.1 rows.now) }
    ensures none { (begins : Head) (lines : List JournalLine) → Tells begins lines rows.now → OnErr result ⊥ }
{
    match rows {
        [] => Err(Unread::NoArchive),
        [first, rest @ ..] => check_from(first, rest),
    }
}

/// The archive that has these rows; else why they are those of none.
pub(crate) fn archive_of(rows: Vec<Row>) -> Result<Archive, Unread>
    ensures whole { IfOk result (λ archive. (lines : List JournalLine) × IsPart archive lines) }
    ensures only { (begins : Head) (lines : List JournalLine) → Tells begins lines rows.items
        → IfOk result (λ archive. (archive.begins ≡ begins) × IsPart archive lines) }
    ensures none { (begins : Head) (lines : List JournalLine) → Tells begins lines rows.items
        → OnErr result ⊥ }
{
    match check_rows(&rows) {
        Ok((begins, ends)) => Ok(Archive { begins, ends, rows }),
        Err(unread) => Err(unread),
    }
}
