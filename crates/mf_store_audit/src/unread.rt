//! Rows that no record can hold, such as one with a number below 0 or a text that is not UTF-8.

ghost use Rattle.std.specs.Prelude.{◌≡◌, ◌↔◌, ◌≤◌, false, List, [], ◌∷◌, length, IsTrue, OnOk, IfOk, IfErr};
ghost use Rattle.mf_base.specs.declared.fault.Fault.TheVariants.{F20};
ghost use Rattle.sqlite.specs.Effect.{Database};
ghost use Rattle.sqlite.specs.Given.{IsPlain};
ghost use Rattle.sqlite.specs.Held.{state};
ghost use Rattle.sqlite.specs.Listing.{understood};
ghost use Rattle.sqlite.specs.Order.{Row as SqlRow};
ghost use Rattle.sqlite.specs.Schema.{Schema};
ghost use Rattle.sqlite.specs.State.{HasCleanDisk};
ghost use Rattle.sqlite_catalog.specs.Listing.{IsSound};
ghost use Rattle.sqlite_value.specs.Value.{owned};
ghost use Rattle.mf_store_schema.specs.Fields.{HasFields};
ghost use Rattle.mf_store_schema.specs.Schemas.{IsUnchangedUnder};
ghost use Rattle.mf_store_sql.specs.Columns.{Named};
ghost use Rattle.mf_store_sql.specs.Queries.{Answers};
ghost use Rattle.mf_store_audit.specs.Unread.{AddUnread, AreAdded, AreShown, HasBadText, IsBadText, IsToldAt};
ghost use Rattle.mf_store_audit.specs.Unread.{IsUnreadFor, kept_as, numbers_in};

use crate::named::NamedTable;
use mf_base::Fault;
use mf_store_schema::read_any;
use mf_store_sql::query;
use sqlite::types::ValueRef;
use sqlite::{Alter, Connection, Row};
use std::alloc::Global;

/// A table of the program.
#[derive(Clone, Copy, Debug, PartialEq, Eq)]
pub enum TableName {
    Meta,
    Offices,
    Staff,
    Clients,
    Charges,
    Products,
    Loans,
    Entries,
    Receipts,
    Instalments,
    Shares,
}

/// The value for which no record can hold a row.
#[derive(Clone, Copy, Debug, PartialEq, Eq)]
pub enum UnreadValue {
    /// A text that is not UTF-8.
    NotUtf8,
    /// A number that is not 0 to 4294967295; the row's texts are UTF-8.
    OutOfRange,
}

/// A row that no record of its table can hold.
#[derive(Drop)]
pub struct Unread {
    pub table: TableName,
    /// Its place in the order of the table's key, counted from 0.
    pub place: usize,
    /// The value for which none can.
    pub value: UnreadValue,
    /// The numbers of its key.
    pub key: Vec<i64>,
}

/// Whether a value is a text that is not UTF-8.
fn is_bad_text(value: ValueRef<'_>) -> bool
    ensures { IsTrue result ↔ IsBadText (owned value.entry) }
{
    let ValueRef::Text(text) = value else {
        return false;
    };
    match str::from_utf8(text) {
        Ok(_) => false,
        Err(_) => true,
    }
}

/// Whether a text of the row is not UTF-8.
fn has_bad_text(row: &Row) -> bool
    ensures { IsTrue result ↔ HasBadText row.now }
{
    for column in 0..row.column_count() {
        if let Ok(value) = row.get_ref(column) {
            if is_bad_text(value) {
                return true;
            }
        }
    }
    false
}

/// The value for which no record can hold a row.
fn unread_value(row: &Row) -> UnreadValue
    ensures value { (columns : List Named) → ¬ HasFields columns row.now → IsUnreadFor result columns row.now }
{
    if has_bad_text(row) {
        UnreadValue::NotUtf8
    } else {
        UnreadValue::OutOfRange
    }
}

/// How many of the first columns of a table hold the numbers of its key.
fn key_numbers(table: TableName) -> usize
    ensures { result ≡ (kept_as table).numbers }
{
    match table {
        TableName::Meta
        | TableName::Offices
        | TableName::Charges
        | TableName::Products
        | TableName::Receipts => 1,
        TableName::Staff | TableName::Clients | TableName::Loans => 2,
        TableName::Entries | TableName::Instalments => 3,
        TableName::Shares => 4,
    }
}

/// The numbers in the first columns of a row, so many. The error is F20, out of memory.
fn numbers_of(alloc: Global, row: &Row, columns: usize) -> Result<Vec<i64>, Fault>
    ensures numbers { IfOk result (λ numbers. numbers.items ≡ numbers_in columns row.now) }
    ensures gives_up { IfErr result (λ fault. fault ≡ F20) }
{
    let mut numbers = Vec::new(alloc);
    for column in 0..columns {
        if let Ok(ValueRef::Int(number)) = row.get_ref(column) {
            numbers.push(number)?;
        }
    }
    Ok(numbers)
}

/// What is told of the row at a place: that no record can hold it, or nothing where one has it. The error is F20, out
/// of memory.
fn told_at<T: NamedTable>(alloc: Global, place: usize, row: &Row) -> Result<Option<Unread>, Fault>
    ensures told { IfOk result (IsToldAt T.name place row.now) }
    ensures gives_up { IfErr result (λ fault. fault ≡ F20) }
{
    let found: Option<T> = read_any(row)?;
    if found.is_some() {
        return Ok(None);
    }
    let table = T::name();
    let key = numbers_of(alloc, row, key_numbers(table))?;
    Ok(Some(Unread {
        table,
        place,
        value: unread_value(row),
        key,
    }))
}

/// Adds each of a table's rows that no record can hold, in order; or the first alone, where not all are wanted. The
/// error is F20, out of memory.
fn add_told<T: NamedTable>(
    alloc: Global,
    rows: &[Row],
    all: bool,
    unread: &mut Vec<Unread>,
) -> Result<(), Fault>
    ensures added { OnOk result (AreAdded T.name rows.now all unread.old.items unread.new.items) }
    ensures one { OnOk result (all ≡ false → unread.old.items ≡ [] → length unread.new.items ≤ 1) }
    ensures gives_up { IfErr result (λ fault. fault ≡ F20) }
{
    for place in 0..rows.len() {
        if let Some(told) = told_at::<T>(alloc, place, &rows[place])? {
            unread.push(told)?;
            if !all {
                return Ok(());
            }
        }
    }
    Ok(())
}

/// Whether not all are wanted, and one was found.
pub(crate) fn are_enough(all: bool, unread: &[Unread]) -> bool
    ensures { IsTrue result ↔ (all ≡ false) × ¬ (unread.now ≡ []) }
{
    !all && !unread.is_empty()
}

/// The text that shows a whole table, and what it means under each schema that has the table.
fn shown_text<T: NamedTable>() -> &'static str
    ensures plain { (k : Schema) → T.IsUnder k → IsPlain (understood k result.now) }
    ensures shows { (db : Database) (rows : List SqlRow) → T.IsUnder db.schema → IsSound db.schema db.trees
        → Answers result.now [] db rows → AreShown T.name db rows }
{
    T::every_text()
}

/// Adds each row of a table that no record can hold, in the order of its key; or the first alone, where not all are
/// wanted. The error is F20.
///
/// The clause on what is added speaks of a connection whose tables are those of a schema with this table, whatever rows
/// stand there.
pub(crate) fn add_unread_in<T: NamedTable, S: Alter>(
    alloc: Global,
    connection: &mut Connection<S>,
    all: bool,
    unread: &mut Vec<Unread>,
) -> Result<(), Fault>
    requires alone { connection.old.in_transaction ≡ false }
    ensures kept { IsUnchangedUnder T.IsUnder (state S.Store connection.old) (state S.Store connection.new) }
    ensures gives_up { IfErr result (λ fault. fault ≡ F20) }
    ensures open { HasCleanDisk (state S.Store connection.new)
        → OnOk result (IsTrue (state S.Store connection.new).is_open) }
    ensures added { HasCleanDisk (state S.Store connection.new) → T.IsUnder (state S.Store connection.old).now.schema
        → OnOk result (AddUnread (state S.Store connection.old).now (T.name ∷ []) all unread.old.items
        unread.new.items) }
    ensures one { OnOk result (all ≡ false → unread.old.items ≡ [] → length unread.new.items ≤ 1) }
    ensures mode { connection.new.in_transaction ≡ false }
{
    let _schema = connection.schema();
    let Ok(rows) = query(connection, shown_text::<T>(), &[]) else {
        return Err(Fault::F20);
    };
    add_told::<T>(alloc, &rows, all, unread)
}
