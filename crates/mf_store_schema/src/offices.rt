//! The table offices: its rows, and the texts that read and write them.

ghost use Rattle.std.specs.Prelude.{◌≡◌, false, IsTrue, OnOk, IfOk, IfErr, map, filter};
ghost use Rattle.mf_base.specs.declared.fault.Fault.TheVariants.{F20};
ghost use Rattle.sqlite.specs.Held.{state};
ghost use Rattle.sqlite.specs.State.{HasCleanDisk};
ghost use Rattle.std.specs.Ordering.{is_eq};
ghost use Rattle.mf_store_schema.specs.Tables.{offices};
ghost use Rattle.mf_store_schema.specs.OfficesTexts.{kept, fits, ordered, asked};
ghost use Rattle.mf_store_schema.specs.Keys.{one_number};
ghost use Rattle.mf_store_schema.specs.Once.{office_once};
ghost use Rattle.mf_store_schema.specs.Rows.{by_office, Lists, office_row, put_office};
ghost use Rattle.mf_store_schema.specs.Rows.{is_row_of_office, is_between_keys};
ghost use Rattle.mf_store_schema.specs.Calls.{IsAsBefore, IsKeeping};
ghost use Rattle.mf_store_schema.specs.Schemas.{IsKnown};
ghost use Rattle.mf_store_schema.specs.Whole.{asked_known};

use crate::table::{Table, ask, has_columns, run};
use crate::text::Text;
use crate::words::{ColumnWords, IndexWords, TableWords};
use mf_base::Fault;
use sqlite::{Alter, Connection, Error, Row, Transaction, params};

/// Makes the table.
pub(crate) const CREATE_TEXT: &str =
    "CREATE TABLE offices (number INT NOT NULL, parent INTEGER, hkey TEXT NOT NULL UNIQUE, name TEXT NOT NULL, \
     PRIMARY KEY (number)) STRICT";

/// The table in words that a schema found is compared with.
pub(crate) const WORDS: TableWords = TableWords {
    tree: 2,
    name: "offices",
    columns: &[
        ColumnWords::Int("number"),
        ColumnWords::MaybeInt("parent"),
        ColumnWords::Text("hkey"),
        ColumnWords::Text("name"),
    ],
    rowid: None,
    primary: &[1],
    uniques: &[&[3], &[1]],
};

/// The index of hierarchy texts.
pub(crate) const TEXT_INDEX: IndexWords = IndexWords {
    table: 2,
    tree: 3,
    name: "sqlite_autoindex_offices_1",
    key: &[3],
};

/// The index of its key.
pub(crate) const INDEX: IndexWords = IndexWords {
    table: 2,
    tree: 4,
    name: "sqlite_autoindex_offices_2",
    key: &[1],
};

/// A row of the table offices.
#[derive(Drop)]
pub struct OfficeRow {
    pub number: u32,
    /// The office above; the head has none.
    pub parent: Option<u32>,
    /// The hierarchy text.
    pub hkey: Text,
    pub name: Text,
}

#[tactic(auto, using(crate::proofs::RowLemmas::row_is, crate::proofs::CallLemmas::ran_with))]
impl Table for OfficeRow {
    ghost use Rattle.std.proofs.Common.{ap, refl};

    type Key = u32;

    ghost columns = { offices };

    ghost place = { 1 };

    ghost tree = { 2 };

    ghost IsUnder = { IsKnown };

    ghost stored = { office_row };

    ghost by = { by_office };

    ghost list = { λ lists. lists.offices };

    ghost put = { put_office };

    ghost is_at = { is_row_of_office };

    fn read(row: &Row) -> Result<OfficeRow, Error> {
        has_columns(row, 4)?;
        Ok(OfficeRow {
            number: row.get(0)?,
            parent: row.get(1)?,
            hkey: row.get(2)?,
            name: row.get(3)?,
        })
    }

    #[tactic(auto, using(crate::proofs::CallLemmas::ran_with, crate::proofs::CallLemmas::failed_with))]
    fn execute<S: Alter>(&self, tx: &mut Transaction<'_, S>, sql: &str) -> Result<(), Error> {
        run(
            tx,
            sql,
            params![self.number, self.parent, &self.hkey, &self.name],
        )
    }

    fn find_text() -> &'static str {
        "SELECT number, parent, hkey, name FROM offices WHERE number = ?1 ORDER BY number"
    }

    fn insert_text() -> &'static str {
        "INSERT INTO offices VALUES (?1, ?2, ?3, ?4)"
    }

    fn every_text() -> &'static str {
        "SELECT number, parent, hkey, name FROM offices ORDER BY number"
    }

    ghost kept = { kept };

    ghost asked = { asked_known 1 2 offices asked };

    ghost fits = { fits };

    ghost ordered = { ordered };

    ghost once = { office_once };

    ghost keyed = { refl };

    ghost found = { λ key x. ap is_eq (one_number key x.number) };

    ghost held = { λ trees lists all. all.1.0 };

    ghost changes = { λ x lists trees all. all };

    ghost spared = { λ x lists. refl };
}

/// The offices whose hierarchy text is at least `low` and below `high`, byte by byte, in the order of their numbers.
pub fn offices_within<S: Alter>(
    connection: &mut Connection<S>,
    low: &str,
    high: &str,
) -> Result<Vec<Row>, Fault>
    requires alone { connection.old.in_transaction ≡ false }
    ensures kept { IsAsBefore (state S.Store connection.old) (state S.Store connection.new) }
    ensures gives_up { IfErr result (λ fault. fault ≡ F20) }
    ensures open { HasCleanDisk (state S.Store connection.new)
        → OnOk result (IsTrue (state S.Store connection.new).is_open) }
    ensures rows { HasCleanDisk (state S.Store connection.new) → (lists : Lists)
        → IsKeeping (state S.Store connection.old) lists
        → IfOk result (λ rows. rows.items ≡ map office_row (filter (is_between_keys low.now high.now) lists.offices)) }
    ensures mode { connection.new.in_transaction ≡ false }
{
    ask(
        connection,
        "SELECT number, parent, hkey, name FROM offices WHERE hkey >= ?1 AND hkey < ?2 ORDER BY number",
        params![low, high],
    )
}
