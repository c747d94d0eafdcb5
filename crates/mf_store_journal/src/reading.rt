//! Rows of the table as it shows them: the first, the last, and those above a number.

ghost use Rattle.std.specs.Prelude.{◌≡◌, ◌≤◌, List, Some, None, false, IsTrue, OnOk, IfOk, IfErr, option_map};
ghost use Rattle.std.specs.Prelude.{slice_get, length};
ghost use Rattle.std.specs.List.{last_or};
ghost use Rattle.mf_base.specs.declared.fault.Fault.TheVariants.{F20};
ghost use Rattle.sqlite.specs.State.{HasCleanDisk};
ghost use Rattle.sqlite.specs.Held.{state};
ghost use Rattle.mf_store_sql.specs.Numbered.{Filed, above_text, last_text, shown_filed};
ghost use Rattle.mf_store_schema.specs.Schemas.{IsUnchangedUnder};
ghost use Rattle.mf_journal.specs.Following.{head_of};
ghost use Rattle.mf_store_schema.specs.Tables.{journal};
ghost use Rattle.mf_store_journal.specs.Texts.{first_text};
ghost use Rattle.mf_store_journal.specs.Reading.{IsThird, IsKeeping, IsStanding, first_above, page_above};

use crate::rows::kept_row;
use mf_base::Fault;
use mf_journal::{Head, KeptRow};
use mf_store_sql::numbered::{last_row, rows_above};
use mf_store_sql::query;
use sqlite::{Alter, Connection, Row};

/// How many rows are read at a time.
const PAGE_SIZE: u32 = 1_000;

fn above_text() -> &'static str
    ensures { result.now ≡ above_text journal }
{
    "SELECT number, day, office, staff, told, method, path, body, named_office, named_loan, chain \
     FROM journal WHERE number > ?1 ORDER BY number LIMIT ?2"
}

fn last_text() -> &'static str
    ensures { result.now ≡ last_text journal }
{
    "SELECT number, day, office, staff, told, method, path, body, named_office, named_loan, chain \
     FROM journal ORDER BY number DESC LIMIT 1"
}

fn first_text() -> &'static str
    ensures { result.now ≡ first_text journal }
{
    "SELECT number, day, office, staff, told, method, path, body, named_office, named_loan, chain \
     FROM journal ORDER BY number LIMIT 1"
}

/// Where a journal stands, by the last row of its table.
#[derive(Clone, Copy)]
pub enum Standing {
    /// The table has no row: no journal is kept.
    Nowhere,
    /// After its last line, or where it begins.
    At(Head),
    /// The row has values that no line has.
    Unreadable,
}

/// The first rows above a number, the lowest first, and no more than so many: whatever rows a stranger wrote.
pub fn first_rows_after<S: Alter>(
    connection: &mut Connection<S>,
    number: u32,
    most: u32,
) -> Result<Vec<Row>, Fault>
    requires alone { connection.old.in_transaction ≡ false }
    ensures kept { IsUnchangedUnder IsThird (state S.Store connection.old) (state S.Store connection.new) }
    ensures gives_up { IfErr result (λ fault. fault ≡ F20) }
    ensures open { HasCleanDisk (state S.Store connection.new)
        → OnOk result (IsTrue (state S.Store connection.new).is_open) }
    ensures rows { HasCleanDisk (state S.Store connection.new) → (lines : List Filed)
        → IsKeeping (state S.Store connection.old) lines
        → IfOk result (λ rows. rows.items ≡ first_above most number lines) }
    ensures mode { connection.new.in_transaction ≡ false }
{
    match rows_above(connection, above_text(), number, most) {
        Ok(rows) => Ok(rows),
        Err(_) => Err(Fault::F20),
    }
}

/// The rows above a number, the lowest first, and no more than 1,000: whatever rows a stranger wrote.
pub fn rows_after<S: Alter>(connection: &mut Connection<S>, number: u32) -> Result<Vec<Row>, Fault>
    requires alone { connection.old.in_transaction ≡ false }
    ensures kept { IsUnchangedUnder IsThird (state S.Store connection.old) (state S.Store connection.new) }
    ensures gives_up { IfErr result (λ fault. fault ≡ F20) }
    ensures open { HasCleanDisk (state S.Store connection.new)
        → OnOk result (IsTrue (state S.Store connection.new).is_open) }
    ensures rows { HasCleanDisk (state S.Store connection.new) → (lines : List Filed)
        → IsKeeping (state S.Store connection.old) lines
        → IfOk result (λ rows. rows.items ≡ page_above number lines) }
    ensures mode { connection.new.in_transaction ≡ false }
{
    first_rows_after(connection, number, PAGE_SIZE)
}

/// The last row, if there is one.
fn newest<S: Alter>(connection: &mut Connection<S>) -> Result<Option<Row>, Fault>
    requires alone { connection.old.in_transaction ≡ false }
    ensures kept { IsUnchangedUnder IsThird (state S.Store connection.old) (state S.Store connection.new) }
    ensures gives_up { IfErr result (λ fault. fault ≡ F20) }
    ensures open { HasCleanDisk (state S.Store connection.new)
        → OnOk result (IsTrue (state S.Store connection.new).is_open) }
    ensures row { HasCleanDisk (state S.Store connection.new) → (lines : List Filed)
        → IsKeeping (state S.Store connection.old) lines
        → IfOk result (λ row. row ≡ option_map shown_filed (last_or None lines)) }
    ensures mode { connection.new.in_transaction ≡ false }
{
    match last_row(connection, last_text()) {
        Ok(row) => Ok(row),
        Err(_) => Err(Fault::F20),
    }
}

/// The row, where there is no other.
fn only(mut rows: Vec<Row>) -> Option<Row>
    ensures { length rows.items ≤ 1 → result ≡ slice_get rows.items 0 }
{
    rows.pop()
}

/// The first row, if there is one: that of where the journal begins.
pub(crate) fn oldest<S: Alter>(connection: &mut Connection<S>) -> Result<Option<Row>, Fault>
    requires alone { connection.old.in_transaction ≡ false }
    ensures kept { IsUnchangedUnder IsThird (state S.Store connection.old) (state S.Store connection.new) }
    ensures gives_up { IfErr result (λ fault. fault ≡ F20) }
    ensures open { HasCleanDisk (state S.Store connection.new)
        → OnOk result (IsTrue (state S.Store connection.new).is_open) }
    ensures row { HasCleanDisk (state S.Store connection.new) → (lines : List Filed)
        → IsKeeping (state S.Store connection.old) lines
        → IfOk result (λ row. row ≡ option_map shown_filed (slice_get lines 0)) }
    ensures mode { connection.new.in_transaction ≡ false }
{
    match query(connection, first_text(), &[]) {
        Ok(rows) => Ok(only(rows)),
        Err(_) => Err(Fault::F20),
    }
}

/// Where the journal stands after a row.
pub(crate) fn head_at(kept: KeptRow<'_>) -> Head
    ensures { result ≡ head_of kept.entry }
{
    let chain = kept.chain;
    Head {
        number: kept.number,
        day: kept.row.day,
        chain,
    }
}

/// Where a journal stands whose table has this row as its last.
fn standing_in(row: &Row) -> Standing
    ensures { (lines : List Filed) → Some row.now ≡ option_map shown_filed (last_or None lines)
        → IsStanding lines result }
{
    match kept_row(row) {
        None => Standing::Unreadable,
        Some(kept) => Standing::At(head_at(kept)),
    }
}

/// Where the journal stands, by the last row of its table.
pub fn read_head<S: Alter>(connection: &mut Connection<S>) -> Result<Standing, Fault>
    requires alone { connection.old.in_transaction ≡ false }
    ensures kept { IsUnchangedUnder IsThird (state S.Store connection.old) (state S.Store connection.new) }
    ensures gives_up { IfErr result (λ fault. fault ≡ F20) }
    ensures open { HasCleanDisk (state S.Store connection.new)
        → OnOk result (IsTrue (state S.Store connection.new).is_open) }
    ensures stands { HasCleanDisk (state S.Store connection.new) → (lines : List Filed)
        → IsKeeping (state S.Store connection.old) lines → IfOk result (IsStanding lines) }
    ensures mode { connection.new.in_transaction ≡ false }
{
    match newest(connection)? {
        None => Ok(Standing::Nowhere),
        Some(row) => Ok(standing_in(&row)),
    }
}
