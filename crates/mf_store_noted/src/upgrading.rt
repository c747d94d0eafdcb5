//! Where the journal begins of an institution that was there without one: at the digest of all its rows.

ghost use Rattle.std.specs.Prelude.{◌≡◌, ◌++◌, ◌∷◌, [], ℕ, List, map, None, false, IsTrue, OnOk, IfOk, IfErr};
ghost use Rattle.std.specs.Prelude.{◌<◌, ◌^◌, length};
ghost use Rattle.std.specs.List.{AllByRecursion};
ghost use Rattle.mf_base.specs.declared.fault.Fault.TheVariants.{F20};
ghost use Rattle.sqlite.specs.Held.{state};
ghost use Rattle.sqlite.specs.State.{HasCleanDisk};
ghost use Rattle.sqlite_value.specs.Value.{owned};
ghost use Rattle.mf_model.specs.Institution.{Institution};
ghost use Rattle.mf_journal.specs.Chain.{number_text, bytes_text};
ghost use Rattle.mf_store_schema.specs.Calls.{IsAsBefore};
ghost use Rattle.mf_store_schema.specs.Rows.{Lists};
ghost use Rattle.mf_store_values.specs.Flat.{tables_of};
ghost use Rattle.mf_store_journal.specs.Checking.{CanBegin};
ghost use Rattle.mf_store_noted.specs.Fitting.{FitsRows, FitsTables, FitsValue};
ghost use Rattle.mf_store_noted.specs.Tabled.{IsKeptIn};
ghost use Rattle.mf_store_noted.specs.Upgrading.{TakesIn, TakesInTables, row_text, table_text, upgrading, value_text};
ghost use Rattle.mf_store_noted.specs.Upgrading.{GetsJournal, tables_text};

use crate::beginning::begin_journal;
use mf_base::{Day, Fault};
use mf_journal::Head;
use mf_store_journal::Journal;
use mf_store_schema::{
    ChargeRow, ClientRow, EntryRow, InstalmentRow, LoanRow, MetaRow, OfficeRow, ProductRow,
    ReceiptRow, ShareRow, StaffRow, Table, ask,
};
use sha2::{Digest, Sha256};
use sqlite::types::ValueRef;
use sqlite::{Alter, Connection, Row};
use std::alloc::Global;

/// A number, in eight bytes, the greatest first.
fn put_number(hasher: &mut Sha256, number: u64)
    ensures { TakesIn hasher.old hasher.new (number_text number) }
{
    hasher.update(number.to_be_bytes());
}

/// Bytes behind their length.
fn put_bytes(hasher: &mut Sha256, bytes: &[u8])
    ensures takes_in { TakesIn hasher.old hasher.new (bytes_text bytes.now) }
    ensures fits { length bytes.now < 2 ^ 64 }
{
    put_number(hasher, bytes.len() as u64);
    hasher.update(bytes);
}

/// The kind of a value.
fn put_kind(hasher: &mut Sha256, kind: u8)
    ensures { TakesIn hasher.old hasher.new (kind ∷ []) }
{
    hasher.update([kind]);
}

/// A value, behind its kind.
fn put_value(hasher: &mut Sha256, value: ValueRef<'_>)
    ensures takes_in { TakesIn hasher.old hasher.new (value_text (owned value.entry)) }
    ensures fits { FitsValue (owned value.entry) }
{
    match value {
        ValueRef::Null => put_kind(hasher, 0),
        ValueRef::Int(number) => {
            put_kind(hasher, 1);
            put_number(hasher, number.cast_unsigned());
        }
        ValueRef::Text(text) => {
            put_kind(hasher, 2);
            put_bytes(hasher, text);
        }
        ValueRef::Real(_) => put_kind(hasher, 3),
        ValueRef::Blob(_) => put_kind(hasher, 3),
    }
}

/// A row, value by value.
fn put_row(hasher: &mut Sha256, row: &Row)
    ensures takes_in { TakesIn hasher.old hasher.new (row_text row.now) }
    ensures fits { AllByRecursion FitsValue row.now }
{
    for column in 0..row.column_count() {
        if let Ok(value) = row.get_ref(column) {
            put_value(hasher, value);
        }
    }
}

/// The number of rows, and then each row.
fn put_rows(hasher: &mut Sha256, rows: &[Row])
    ensures takes_in { TakesIn hasher.old hasher.new (table_text rows.now) }
    ensures fits { FitsRows rows.now }
{
    put_number(hasher, rows.len() as u64);
    for row in rows {
        put_row(hasher, row);
    }
}

/// Tables that are read whole: a `Vec` of records stands for one of them, and a pair for one after the other.
trait WholeTables {
    /// The text of what they keep.
    ghost text: { Lists → List ℕ };

    /// The text has room for what they keep.
    ghost Fit: { Lists → Type 0 };

    /// Puts the rows of the tables.
    fn put_tables<S: Alter>(
        connection: &mut Connection<S>,
        hasher: &mut Sha256,
    ) -> Result<(), Fault>
        requires alone { connection.old.in_transaction ≡ false }
        ensures takes_in { TakesInTables S.Store text Fit connection.old connection.new hasher.old hasher.new result }
        ensures mode { connection.new.in_transaction ≡ false };
}

impl<T: Table> WholeTables for Vec<T> {
    ghost text = { λ lists. table_text (map T.Table.stored (T.Table.list lists)) };

    ghost Fit = { λ lists. FitsRows (map T.Table.stored (T.Table.list lists)) };

    fn put_tables<S: Alter>(
        connection: &mut Connection<S>,
        hasher: &mut Sha256,
    ) -> Result<(), Fault> {
        let rows = ask(connection, T::every_text(), &[])?;
        put_rows(hasher, &rows);
        Ok(())
    }
}

impl<A: WholeTables, B: WholeTables> WholeTables for (A, B) {
    ghost text = { λ lists. A.WholeTables.text lists ++ B.WholeTables.text lists };

    ghost Fit = { λ lists. A.WholeTables.Fit lists × B.WholeTables.Fit lists };

    fn put_tables<S: Alter>(
        connection: &mut Connection<S>,
        hasher: &mut Sha256,
    ) -> Result<(), Fault> {
        A::put_tables(connection, hasher)?;
        B::put_tables(connection, hasher)
    }
}

/// The loans, and what they have.
type Loans = (
    Vec<LoanRow>,
    (
        Vec<EntryRow>,
        (Vec<ReceiptRow>, (Vec<InstalmentRow>, Vec<ShareRow>)),
    ),
);

/// All tables but the journal.
type All = (
    Vec<MetaRow>,
    (
        Vec<OfficeRow>,
        (
            Vec<StaffRow>,
            (Vec<ClientRow>, (Vec<ChargeRow>, (Vec<ProductRow>, Loans))),
        ),
    ),
);

/// The rows of all tables but the journal.
fn put_all<S: Alter>(connection: &mut Connection<S>, hasher: &mut Sha256) -> Result<(), Fault>
    requires alone { connection.old.in_transaction ≡ false }
    ensures takes_in { TakesInTables S.Store tables_text FitsTables connection.old connection.new hasher.old
        hasher.new result }
    ensures mode { connection.new.in_transaction ≡ false }
{
    All::put_tables(connection, hasher)
}

/// Where the journal begins of the institution in the tables, which keeps none and is on this business day. It keeps
/// the rows of one table at a time. The error is F20.
pub fn upgrading_head<S: Alter>(connection: &mut Connection<S>, day: Day) -> Result<Head, Fault>
    requires alone { connection.old.in_transaction ≡ false }
    ensures kept { IsAsBefore (state S.Store connection.old) (state S.Store connection.new) }
    ensures gives_up { IfErr result (λ fault. fault ≡ F20) }
    ensures open { HasCleanDisk (state S.Store connection.new)
        → OnOk result (IsTrue (state S.Store connection.new).is_open) }
    ensures head { HasCleanDisk (state S.Store connection.new) → (i : Institution)
        → IsKeptIn S.Store None connection.old i → IfOk result (λ head. head ≡ upgrading day (tables_of i)) }
    ensures fits { HasCleanDisk (state S.Store connection.new) → OnOk result ((i : Institution)
        → IsKeptIn S.Store None connection.old i → FitsTables (tables_of i)) }
    ensures can { IfOk result CanBegin }
    ensures mode { connection.new.in_transaction ≡ false }
{
    let number = u64::from(day.number());
    let mut hasher = Sha256::new();
    hasher.update(b"microloan upgraded");
    put_number(&mut hasher, number);
    put_all(connection, &mut hasher)?;
    Ok(Head {
        number: 0,
        day: number,
        chain: hasher.finalize(),
    })
}

/// Gives the institution in the tables, which keeps no journal and is on this business day, one that has no line yet
/// and begins at the digest of all its rows, in one commit. The error is F20.
pub fn begin_upgraded<S: Alter>(
    alloc: Global,
    connection: &mut Connection<S>,
    day: Day,
) -> Result<Journal, Fault>
    requires alone { connection.old.in_transaction ≡ false }
    ensures gets { GetsJournal S.Store day connection.old connection.new result }
    ensures mode { connection.new.in_transaction ≡ false }
{
    let begins = upgrading_head(connection, day)?;
    begin_journal(alloc, connection, day, begins)?;
    Ok(Journal {
        begins,
        head: begins,
    })
}
