//! A check of the whole table, a page of rows at a time.

ghost use Rattle.std.specs.Prelude.{◌≡◌, ◌↔◌, List, ◌∷◌, map, Some, false, IsTrue, OnOk, IfOk, IfErr, IfSome, IfNone};
ghost use Rattle.std.specs.Prelude.{option_map, slice_get};
ghost use Rattle.mf_base.specs.declared.fault.Fault.TheVariants.{F20};
ghost use Rattle.sqlite.specs.State.{HasCleanDisk};
ghost use Rattle.sqlite.specs.Held.{state};
ghost use Rattle.mf_store_sql.specs.Numbered.{Filed, shown_filed};
ghost use Rattle.mf_store_schema.specs.Schemas.{IsUnchangedUnder};
ghost use Rattle.mf_journal.specs.Chain.{line_of_row};
ghost use Rattle.mf_journal.specs.declared.following.Head.{Head};
ghost use Rattle.mf_store_journal.specs.Rows.{filed_beginning, no_line};
ghost use Rattle.mf_store_journal.specs.Reading.{IsThird, IsKeeping};
ghost use Rattle.mf_store_journal.specs.Checking.{AreFollowing, StopsAt, CanBegin, IsFound};

use crate::journal::Journal;
use crate::numbers::narrow;
use crate::reading::{head_at, oldest, rows_after};
use crate::rows::kept_row;
use mf_base::Fault;
use mf_journal::{Break, Head, JournalRow};
use sqlite::{Alter, Connection, Row};

/// Why a row doesn't follow on those before it.
#[derive(Clone, Copy)]
pub enum Flaw {
    /// The row with this number breaks this condition.
    Broken(u64, Break),
    /// The row after that with this number has values that no line has.
    NoLine(u64),
}

/// What the rows of the table are.
#[derive(Clone, Copy)]
pub enum Found {
    /// There is none: no journal is kept.
    Nothing,
    /// The first doesn't say where a journal begins.
    NoBeginning,
    /// Each follows on those before it: a journal, which begins and stands so.
    Whole(Journal),
    /// The first that doesn't follow on those before it.
    Flawed(Flaw),
}

/// Whether the row has a day and nothing else, as that of where a journal begins.
fn is_beginning(row: JournalRow<'_>) -> bool
    ensures { IsTrue result ↔ line_of_row row.entry ≡ no_line row.entry.day }
{
    let is_unnamed = row.named_office == 0 && row.named_loan == 0;
    let is_unsent = row.office == 0 && row.staff == 0 && row.told.is_empty();
    let is_textless = row.method.is_empty() && row.path.is_empty() && row.body.is_empty();
    is_unnamed && is_unsent && is_textless
}

/// Where the journal begins by its first row; none where no beginning has it.
fn beginning_in(row: &Row) -> Option<Head>
    ensures some { IfSome result (λ head. shown_filed (filed_beginning head) ≡ row.now) }
    ensures can { IfSome result CanBegin }
    ensures none { IfNone result ((h : Head) → CanBegin h → ¬ (shown_filed (filed_beginning h) ≡ row.now)) }
{
    let kept = kept_row(row)?;
    if !is_beginning(kept.row) {
        return None;
    }
    Some(head_at(kept))
}

/// Where the journal stands after rows, if each follows on; else what is wrong with the first that doesn't.
fn follow_rows(head: Head, rows: &[Row]) -> Result<Head, Flaw>
    ensures follow { (lines : List Filed) → rows.now ≡ map shown_filed lines
        → IfOk result (λ next. AreFollowing head lines next) }
    ensures flawed { (lines : List Filed) → rows.now ≡ map shown_filed lines
        → IfErr result (λ flaw. StopsAt head lines flaw) }
{
    let mut now = head;
    for place in 0..rows.len() {
        let Some(kept) = kept_row(&rows[place]) else {
            return Err(Flaw::NoLine(now.number));
        };
        match now.follow(kept) {
            Ok(next) => now = next,
            Err(flaw) => return Err(Flaw::Broken(kept.number, flaw)),
        }
    }
    Ok(now)
}

/// What the rows after those up to where the journal stands are.
fn follow_from<S: Alter>(connection: &mut Connection<S>, beginning: Head) -> Result<Found, Fault>
    requires alone { connection.old.in_transaction ≡ false }
    ensures kept { IsUnchangedUnder IsThird (state S.Store connection.old) (state S.Store connection.new) }
    ensures gives_up { IfErr result (λ fault. fault ≡ F20) }
    ensures open { HasCleanDisk (state S.Store connection.new)
        → OnOk result (IsTrue (state S.Store connection.new).is_open) }
    ensures found { HasCleanDisk (state S.Store connection.new) → (lines : List Filed)
        → IsKeeping (state S.Store connection.old) lines
        → IfOk result (λ found. CanBegin beginning → (rest : List Filed) → lines ≡ filed_beginning beginning ∷ rest
        → IsFound lines found) }
    ensures mode { connection.new.in_transaction ≡ false }
{
    let mut head = beginning;
    'pages: for _ in 0..u64::MAX {
        // No row that is read has a greater number.
        let Some(number) = narrow(head.number) else {
            return Err(Fault::F20);
        };
        let rows = rows_after(connection, number)?;
        if rows.is_empty() {
            return Ok(Found::Whole(Journal {
                begins: beginning,
                head,
            }));
        }
        match follow_rows(head, &rows) {
            Ok(next) => head = next,
            Err(flaw) => return Ok(Found::Flawed(flaw)),
        }
    }
    Err(Fault::F20)
}

/// What the rows are of a table with this row as its first.
fn check_after<S: Alter>(connection: &mut Connection<S>, first: &Row) -> Result<Found, Fault>
    requires alone { connection.old.in_transaction ≡ false }
    ensures kept { IsUnchangedUnder IsThird (state S.Store connection.old) (state S.Store connection.new) }
    ensures gives_up { IfErr result (λ fault. fault ≡ F20) }
    ensures open { HasCleanDisk (state S.Store connection.new) → IsTrue (state S.Store connection.old).is_open
        → OnOk result (IsTrue (state S.Store connection.new).is_open) }
    ensures found { HasCleanDisk (state S.Store connection.new) → (lines : List Filed)
        → IsKeeping (state S.Store connection.old) lines
        → Some first.now ≡ option_map shown_filed (slice_get lines 0) → IfOk result (IsFound lines) }
    ensures mode { connection.new.in_transaction ≡ false }
{
    match beginning_in(first) {
        None => Ok(Found::NoBeginning),
        Some(beginning) => follow_from(connection, beginning),
    }
}

/// Checks the table: what its rows are, whatever a stranger wrote there. It reads 1,000 rows at a time.
pub fn check_journal<S: Alter>(connection: &mut Connection<S>) -> Result<Found, Fault>
    requires alone { connection.old.in_transaction ≡ false }
    ensures kept { IsUnchangedUnder IsThird (state S.Store connection.old) (state S.Store connection.new) }
    ensures gives_up { IfErr result (λ fault. fault ≡ F20) }
    ensures open { HasCleanDisk (state S.Store connection.new)
        → OnOk result (IsTrue (state S.Store connection.new).is_open) }
    ensures found { HasCleanDisk (state S.Store connection.new) → (lines : List Filed)
        → IsKeeping (state S.Store connection.old) lines → IfOk result (IsFound lines) }
    ensures mode { connection.new.in_transaction ≡ false }
{
    match oldest(connection)? {
        None => Ok(Found::Nothing),
        Some(first) => check_after(connection, &first),
    }
}
