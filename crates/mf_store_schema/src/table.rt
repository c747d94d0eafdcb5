//! A table: its columns, its rows, and the texts that read and write it. What these mean follows from the columns.

ghost use Rattle.std.specs.Prelude.{◌≡◌, ◌≢◌, ℕ, List, Bool, IsTrue, OnOk, OnErr, IfOk, IfErr, length, Some, false};
ghost use Rattle.std.specs.Prelude.{true};
ghost use Rattle.std.specs.declared.cmp.Ordering.{Ordering};
ghost use Rattle.std.specs.Prelude.{map, filter, find, slice_get};
ghost use Rattle.mf_base.specs.declared.fault.Fault.TheVariants.{F20};
ghost use Rattle.sqlite.specs.Order.{Row};
ghost use Rattle.sqlite.specs.Schema.{Schema};
ghost use Rattle.sqlite.specs.Tree.{Trees};
ghost use Rattle.sqlite.specs.Given.{IsPlain};
ghost use Rattle.sqlite.specs.Held.{state};
ghost use Rattle.sqlite.specs.Listing.{understood};
ghost use Rattle.sqlite.specs.State.{HasCleanDisk, KeepsCommit, Survives};
ghost use Rattle.sqlite.specs.Values.{bound};
ghost use Rattle.mf_store_sql.specs.Columns.{Columns};
ghost use Rattle.mf_store_sql.specs.Keep.{Keeps, put_item};
ghost use Rattle.mf_store_sql.specs.Meanings.{IsKept, Asks, are_always};
ghost use Rattle.mf_store_sql.specs.Rows.{AreKeepable, ArePlain, begins, first_cmp};
ghost use Rattle.mf_store_sql.specs.Texts.{select_text, insert_text, upsert_text};
ghost use Rattle.mf_store_sql.specs.Trees.{AllHold, changed_at};
ghost use Rattle.mf_store_sql.specs.Writes.{Ran, Serves};
ghost use Rattle.mf_store_schema.specs.Tables.{schema_keeping};
ghost use Rattle.sqlite.specs.declared.error.ErrorCode.TheVariants.{OutOfMemory};
ghost use Rattle.mf_store_schema.specs.Fields.{HasFields};
ghost use Rattle.mf_store_schema.specs.Rows.{Lists, IsNew};
ghost use Rattle.mf_store_schema.specs.Writes.{schema_of, Holds, Putting, Failed, all_conditions, kept_in};
ghost use Rattle.mf_store_schema.specs.Calls.{IsAsBefore, IsKeeping, Shows};
ghost use Rattle.mf_store_schema.specs.Whole.{IsAskable};

use crate::text::Text;
use mf_base::Fault;
use mf_store_sql::query;
use sqlite::{Alter, Connection, Error, Row, Transaction, params};
use sqlite_value::value::ValueRef;

/// The values of first columns, by which rows are looked for.
pub trait Values {
    ghost values: { Self → Row };

    /// How many columns these are.
    ghost width: { ℕ };

    /// The rows that a plain text shows of these values.
    fn ask<S: Alter>(self, connection: &mut Connection<S>, sql: &str) -> Result<Vec<Row>, Fault>
        requires alone { connection.old.in_transaction ≡ false }
        requires plain { (journaled : Bool) → IsPlain (understood (schema_keeping journaled) sql.now) }
        ensures kept { IsAsBefore (state S.Store connection.old) (state S.Store connection.new) }
        ensures gives_up { IfErr result (λ fault. fault ≡ F20) }
        ensures open { HasCleanDisk (state S.Store connection.new)
            → OnOk result (IsTrue (state S.Store connection.new).is_open) }
        ensures shows { HasCleanDisk (state S.Store connection.new)
            → IfOk result (λ rows. Shows (state S.Store connection.old) sql.now (values self) rows.items) }
        ensures mode { connection.new.in_transaction ≡ false };

    ghost plain: { (x : Self) → ArePlain 0 width (values x) };
}

impl Values for u32 {
    ghost use Rattle.std.specs.Prelude.{pos, [], ◌∷◌};
    ghost use Rattle.std.proofs.Common.{refl};
    ghost use Rattle.sqlite.specs.declared.types.Value.TheVariants.{Int};
    ghost use Rattle.mf_store_sql.specs.Columns.{Number};

    ghost values = { λ n. Int (pos n) ∷ [] };

    ghost width = { 1 };

    fn ask<S: Alter>(self, connection: &mut Connection<S>, sql: &str) -> Result<Vec<Row>, Fault> {
        ask(connection, sql, params![self])
    }

    ghost plain = { λ n.
        ((Number, refl, (n, refl)), tt) };
}

impl Values for (u32, u32) {
    ghost use Rattle.std.specs.Prelude.{pos, [], ◌∷◌};
    ghost use Rattle.std.proofs.Common.{refl};
    ghost use Rattle.sqlite.specs.declared.types.Value.TheVariants.{Int};
    ghost use Rattle.mf_store_sql.specs.Columns.{Number};

    ghost values = { λ key. Int (pos key.0) ∷ Int (pos key.1) ∷ [] };

    ghost width = { 2 };

    fn ask<S: Alter>(self, connection: &mut Connection<S>, sql: &str) -> Result<Vec<Row>, Fault> {
        ask(connection, sql, params![self.0, self.1])
    }

    ghost plain = { λ key.
        ((Number, refl, (key.0, refl)), ((Number, refl, (key.1, refl)), tt)) };
}

impl Values for (u32, Text) {
    ghost use Rattle.std.specs.Prelude.{pos, [], ◌∷◌};
    ghost use Rattle.std.proofs.Common.{refl};
    ghost use Rattle.sqlite.specs.declared.types.Value.TheVariants.{Int, Text as Words};
    ghost use Rattle.mf_store_sql.specs.Columns.{Number, Text as OfText};

    ghost values = { λ key. Int (pos key.0) ∷ Words key.1 ∷ [] };

    ghost width = { 2 };

    fn ask<S: Alter>(self, connection: &mut Connection<S>, sql: &str) -> Result<Vec<Row>, Fault> {
        ask(connection, sql, params![self.0, &self.1])
    }

    ghost plain = { λ key.
        ((Number, refl, (key.0, refl)), ((OfText, refl, (key.1, refl)), tt)) };
}

impl Values for (u32, u32, u32) {
    ghost use Rattle.std.specs.Prelude.{pos, [], ◌∷◌};
    ghost use Rattle.std.proofs.Common.{refl};
    ghost use Rattle.sqlite.specs.declared.types.Value.TheVariants.{Int};
    ghost use Rattle.mf_store_sql.specs.Columns.{Number};

    ghost values = { λ key. Int (pos key.0) ∷ Int (pos key.1) ∷ Int (pos key.2) ∷ [] };

    ghost width = { 3 };

    fn ask<S: Alter>(self, connection: &mut Connection<S>, sql: &str) -> Result<Vec<Row>, Fault> {
        ask(connection, sql, params![self.0, self.1, self.2])
    }

    ghost plain = { λ key.
        ((Number, refl, (key.0, refl)), ((Number, refl, (key.1, refl)), ((Number, refl, (key.2, refl)), tt))) };
}

impl Values for (u32, u32, u32, u32) {
    ghost use Rattle.std.specs.Prelude.{pos, [], ◌∷◌};
    ghost use Rattle.std.proofs.Common.{refl};
    ghost use Rattle.sqlite.specs.declared.types.Value.TheVariants.{Int};
    ghost use Rattle.mf_store_sql.specs.Columns.{Number};

    ghost values = { λ key. Int (pos key.0) ∷ Int (pos key.1) ∷ Int (pos key.2) ∷ Int (pos key.3) ∷ [] };

    ghost width = { 4 };

    fn ask<S: Alter>(self, connection: &mut Connection<S>, sql: &str) -> Result<Vec<Row>, Fault> {
        ask(connection, sql, params![self.0, self.1, self.2, self.3])
    }

    ghost plain = { λ key. (
      (Number, refl, (key.0, refl)),
      (
        (Number, refl, (key.1, refl)),
        (
          (Number, refl, (key.2, refl)),
          ((Number, refl, (key.3, refl)), tt),
        ),
      ),
    ) };
}

/// The rows of a table, each as the program holds it.
pub trait Table: Sized {
    /// What one row is found by: the values of its key.
    type Key: Values;

    /// The table's columns.
    ghost columns: { Columns };

    /// Its place among the tables, and the tree of its rows.
    ghost place: { ℕ };

    ghost tree: { ℕ };

    /// The schemas that have it.
    ghost IsUnder: { Schema → Type 0 };

    /// The values that the table keeps of a row.
    ghost stored: { Self → Row };

    /// The order of the rows.
    ghost by: { Self → Self → Ordering };

    /// The list that the table keeps.
    ghost list: { Lists → List Self };

    /// The lists with a row put in its place.
    ghost put: { Self → Lists → Lists };

    /// Whether a row is the one under a key.
    ghost is_at: { Self.Key → Self → Bool };

    /// The row, of whatever values. It fails when out of memory, and with any other error for values that the columns
    /// cannot hold.
    // Each reads its texts last, so that none is to be dropped where a number is refused.
    fn read(row: &Row) -> Result<Self, Error>
        ensures row { IfOk result (λ x. stored x ≡ row.now) }
        ensures none { IfErr result (λ e. e ≢ Error.SqliteFailure OutOfMemory → ¬ HasFields columns.columns row.now) };

    /// Runs a text with the row's values for its parameters.
    fn execute<S: Alter>(&self, tx: &mut Transaction<'_, S>, sql: &str) -> Result<(), Error>
        ensures same_reference { tx.new.conn.ghost_name ≡ tx.old.conn.ghost_name }
        ensures ok { HasCleanDisk (state S.Store tx.new.conn.now)
            → IsTrue (state S.Store tx.old.conn.now).in_transaction
            → OnOk result (Ran sql.now (stored self.now) (state S.Store tx.old.conn.now)
            (state S.Store tx.new.conn.now)) }
        ensures failed { HasCleanDisk (state S.Store tx.new.conn.now)
            → IsTrue (state S.Store tx.old.conn.now).in_transaction
            → IfErr result (Failed sql.now (stored self.now) (state S.Store tx.old.conn.now)
            (state S.Store tx.new.conn.now)) }
        ensures kept { HasCleanDisk (state S.Store tx.new.conn.now) → KeepsCommit (state S.Store tx.old.conn.now)
            (state S.Store tx.new.conn.now) }
        ensures survives { Survives (state S.Store tx.old.conn.now) (state S.Store tx.new.conn.now) (λ _. ⊥) };

    /// The text that shows the row under a key.
    fn find_text() -> &'static str
        ensures { result.now ≡ select_text columns columns.key };

    /// The text that adds a row.
    fn insert_text() -> &'static str
        ensures { result.now ≡ insert_text columns };

    /// The text that shows the whole table, in the order of its key.
    fn every_text() -> &'static str
        ensures { result.now ≡ select_text columns 0 };

    ghost kept: { (journaled : Bool) → IsKept (schema_keeping journaled) place tree columns };

    ghost asked: { (k : Schema) → IsUnder k → IsAskable k place tree columns };

    ghost fits: { (x : Self) → AreKeepable columns.columns (stored x) };

    ghost ordered: { (a b : Self) → by a b ≡ first_cmp columns.key (stored a) (stored b) };

    ghost once: { (x y : Self) → stored x ≡ stored y → x ≡ y };

    ghost keyed: { Self.Key.width ≡ columns.key };

    ghost found: { (key : Self.Key) (x : Self) → is_at key x
        ≡ begins columns.key (Self.Key.values key) (stored x) };

    ghost held: { (trees : Trees) (lists : Lists) → AllHold trees (all_conditions lists)
        → Keeps stored by (trees tree) (list lists) };

    ghost changes: { (x : Self) (lists : Lists) (trees : Trees)
        → AllHold trees (changed_at place (kept_in tree stored by (put_item by x (list lists))) (all_conditions lists))
        → AllHold trees (all_conditions (put x lists)) };

    ghost spared: { (x : Self) (lists : Lists) → (put x lists).journal ≡ lists.journal };
}

/// A table whose rows may be put in place of others.
pub trait Changing: Table {
    /// The text that puts a row, in place of the one with its key if there is one.
    fn upsert_text() -> &'static str
        ensures { result.now ≡ upsert_text Self.columns };
}

/// A table that is listed by its first columns.
pub trait Listed: Table {
    /// The values of these.
    type Part: Values;

    /// Whether a row has these values.
    ghost is_in: { Self.Part → Self → Bool };

    /// The text that shows the rows with these values, in the order of their key.
    fn list_text() -> &'static str
        ensures { result.now ≡ select_text Self.columns Self.Part.width };

    ghost lists: { (journaled : Bool) → Asks (schema_keeping journaled) Self.place Self.tree Self.columns
        Self.Part.width };

    ghost partly: { are_always Self.Part.width (Self.columns).columns ≡ true };

    ghost listed: { (part : Self.Part) (x : Self) → is_in part x
        ≡ begins Self.Part.width (Self.Part.values part) (Self.stored x) };
}

/// The row has so many columns.
pub(crate) fn has_columns(row: &Row, count: usize) -> Result<(), Error>
    ensures ok { OnOk result (length row.now ≡ count) }
    ensures err { OnErr result (length row.now ≢ count) }
{
    let columns = row.column_count();
    if columns == count {
        Ok(())
    } else {
        Err(Error::InvalidColumnIndex(columns))
    }
}

/// The rows that a plain text shows.
pub fn ask<S: Alter>(
    connection: &mut Connection<S>,
    sql: &str,
    params: &[ValueRef<'_>],
) -> Result<Vec<Row>, Fault>
    requires alone { connection.old.in_transaction ≡ false }
    requires plain { (journaled : Bool) → IsPlain (understood (schema_keeping journaled) sql.now) }
    ensures kept { IsAsBefore (state S.Store connection.old) (state S.Store connection.new) }
    ensures gives_up { IfErr result (λ fault. fault ≡ F20) }
    ensures open { HasCleanDisk (state S.Store connection.new)
        → OnOk result (IsTrue (state S.Store connection.new).is_open) }
    ensures shows { HasCleanDisk (state S.Store connection.new)
        → IfOk result (λ rows. Shows (state S.Store connection.old) sql.now (bound params.now) rows.items) }
    ensures mode { connection.new.in_transaction ≡ false }
{
    match query(connection, sql, params) {
        Ok(rows) => Ok(rows),
        Err(_) => Err(Fault::F20),
    }
}

/// Runs one statement in the transaction, which goes on where it is `Ok`.
pub(crate) fn run<S: Alter>(
    tx: &mut Transaction<'_, S>,
    sql: &str,
    params: &[ValueRef<'_>],
) -> Result<(), Error>
    ensures same_reference { tx.new.conn.ghost_name ≡ tx.old.conn.ghost_name }
    ensures ok { HasCleanDisk (state S.Store tx.new.conn.now) → IsTrue (state S.Store tx.old.conn.now).in_transaction
        → OnOk result (Ran sql.now (bound params.now) (state S.Store tx.old.conn.now) (state S.Store tx.new.conn.now)) }
    ensures failed { HasCleanDisk (state S.Store tx.new.conn.now)
        → IsTrue (state S.Store tx.old.conn.now).in_transaction
        → IfErr result (Failed sql.now (bound params.now) (state S.Store tx.old.conn.now)
        (state S.Store tx.new.conn.now)) }
    ensures kept { HasCleanDisk (state S.Store tx.new.conn.now) → KeepsCommit (state S.Store tx.old.conn.now)
        (state S.Store tx.new.conn.now) }
    ensures survives { Survives (state S.Store tx.old.conn.now) (state S.Store tx.new.conn.now) (λ _. ⊥) }
{
    match tx.execute(sql, params) {
        Ok(_) => Ok(()),
        Err(error) => Err(error),
    }
}

/// Adds a row: where a row has its key, that fails.
pub(crate) fn add_row<T: Table, S: Alter>(row: &T, tx: &mut Transaction<'_, S>) -> Result<(), Error>
    ensures same_reference { tx.new.conn.ghost_name ≡ tx.old.conn.ghost_name }
    ensures ok { HasCleanDisk (state S.Store tx.new.conn.now) → IsTrue (state S.Store tx.old.conn.now).in_transaction
        → OnOk result (Putting (T.put row.now) (state S.Store tx.old.conn.now) (state S.Store tx.new.conn.now)) }
    ensures new { HasCleanDisk (state S.Store tx.new.conn.now) → IsTrue (state S.Store tx.old.conn.now).in_transaction
        → OnOk result ((lists : Lists) → Serves schema_of Holds (state S.Store tx.old.conn.now).now (Some lists)
        → IsNew T.by row.now (T.list lists)) }
    ensures ran { HasCleanDisk (state S.Store tx.new.conn.now) → IsTrue (state S.Store tx.old.conn.now).in_transaction
        → OnOk result (Ran (insert_text T.columns) (T.stored row.now) (state S.Store tx.old.conn.now)
        (state S.Store tx.new.conn.now)) }
    ensures failed { HasCleanDisk (state S.Store tx.new.conn.now)
        → IsTrue (state S.Store tx.old.conn.now).in_transaction
        → IfErr result (Failed (insert_text T.columns) (T.stored row.now) (state S.Store tx.old.conn.now)
        (state S.Store tx.new.conn.now)) }
    ensures kept { HasCleanDisk (state S.Store tx.new.conn.now) → KeepsCommit (state S.Store tx.old.conn.now)
        (state S.Store tx.new.conn.now) }
    ensures survives { Survives (state S.Store tx.old.conn.now) (state S.Store tx.new.conn.now) (λ _. ⊥) }
{
    row.execute(tx, T::insert_text())
}

/// Puts a row, in place of the one with its key if there is one.
pub(crate) fn put_row<T: Changing, S: Alter>(
    row: &T,
    tx: &mut Transaction<'_, S>,
) -> Result<(), Error>
    ensures same_reference { tx.new.conn.ghost_name ≡ tx.old.conn.ghost_name }
    ensures ok { HasCleanDisk (state S.Store tx.new.conn.now) → IsTrue (state S.Store tx.old.conn.now).in_transaction
        → OnOk result (Putting (T.put row.now) (state S.Store tx.old.conn.now) (state S.Store tx.new.conn.now)) }
    ensures ran { HasCleanDisk (state S.Store tx.new.conn.now) → IsTrue (state S.Store tx.old.conn.now).in_transaction
        → OnOk result (Ran (upsert_text T.columns) (T.stored row.now) (state S.Store tx.old.conn.now)
        (state S.Store tx.new.conn.now)) }
    ensures failed { HasCleanDisk (state S.Store tx.new.conn.now)
        → IsTrue (state S.Store tx.old.conn.now).in_transaction
        → IfErr result (Failed (upsert_text T.columns) (T.stored row.now) (state S.Store tx.old.conn.now)
        (state S.Store tx.new.conn.now)) }
    ensures kept { HasCleanDisk (state S.Store tx.new.conn.now) → KeepsCommit (state S.Store tx.old.conn.now)
        (state S.Store tx.new.conn.now) }
    ensures survives { Survives (state S.Store tx.old.conn.now) (state S.Store tx.new.conn.now) (λ _. ⊥) }
{
    row.execute(tx, T::upsert_text())
}

/// Reads a row of the table.
pub fn read_row<T: Table>(row: &Row) -> Result<T, Fault>
    ensures row { IfOk result (λ x. (r : T) → row.now ≡ T.stored r → x ≡ r) }
    ensures gives_up { IfErr result (λ fault. fault ≡ F20) }
{
    match T::read(row) {
        Ok(x) => Ok(x),
        Err(_) => Err(Fault::F20),
    }
}

/// The first row, if there is one.
pub(crate) fn first<T: Table>(rows: &[Row]) -> Result<Option<T>, Fault>
    ensures row { IfOk result (λ x. (rs : List T) → rows.now ≡ map T.stored rs → x ≡ slice_get rs 0) }
    ensures gives_up { IfErr result (λ fault. fault ≡ F20) }
{
    match rows.first() {
        None => Ok(None),
        Some(row) => Ok(Some(read_row(row)?)),
    }
}

/// The row under a key, if there is one.
pub fn find_row<T: Table, S: Alter>(
    connection: &mut Connection<S>,
    key: T::Key,
) -> Result<Option<T>, Fault>
    requires alone { connection.old.in_transaction ≡ false }
    ensures kept { IsAsBefore (state S.Store connection.old) (state S.Store connection.new) }
    ensures gives_up { IfErr result (λ fault. fault ≡ F20) }
    ensures open { HasCleanDisk (state S.Store connection.new)
        → OnOk result (IsTrue (state S.Store connection.new).is_open) }
    ensures row { HasCleanDisk (state S.Store connection.new) → (lists : Lists)
        → IsKeeping (state S.Store connection.old) lists → IfOk result (λ x. x ≡ find (T.is_at key) (T.list lists)) }
    ensures mode { connection.new.in_transaction ≡ false }
{
    let rows = key.ask(connection, T::find_text())?;
    first(&rows)
}

/// The rows with these values of the first columns, in the order of their key.
pub fn list_rows<T: Listed, S: Alter>(
    connection: &mut Connection<S>,
    part: T::Part,
) -> Result<Vec<Row>, Fault>
    requires alone { connection.old.in_transaction ≡ false }
    ensures kept { IsAsBefore (state S.Store connection.old) (state S.Store connection.new) }
    ensures gives_up { IfErr result (λ fault. fault ≡ F20) }
    ensures open { HasCleanDisk (state S.Store connection.new)
        → OnOk result (IsTrue (state S.Store connection.new).is_open) }
    ensures rows { HasCleanDisk (state S.Store connection.new) → (lists : Lists)
        → IsKeeping (state S.Store connection.old) lists
        → IfOk result (λ rows. rows.items ≡ map T.stored (filter (T.is_in part) (T.list lists))) }
    ensures mode { connection.new.in_transaction ≡ false }
{
    part.ask(connection, T::list_text())
}
