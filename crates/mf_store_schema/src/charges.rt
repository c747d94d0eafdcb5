//! The table charges: its rows, and the texts that read and write them.

ghost use Rattle.std.specs.Ordering.{is_eq};
ghost use Rattle.mf_store_schema.specs.Tables.{charges};
ghost use Rattle.mf_store_schema.specs.ChargesTexts.{kept, fits, ordered, asked};
ghost use Rattle.mf_store_schema.specs.Keys.{one_number};
ghost use Rattle.mf_store_schema.specs.Once.{charge_once};
ghost use Rattle.mf_store_schema.specs.Rows.{by_charge, charge_row, put_charge, is_row_of_charge};
ghost use Rattle.mf_store_schema.specs.Schemas.{IsKnown};
ghost use Rattle.mf_store_schema.specs.Whole.{asked_known};

use crate::table::{Table, has_columns, run};
use crate::text::Text;
use crate::words::{ColumnWords, IndexWords, TableWords};
use sqlite::{Alter, Error, Row, Transaction, params};

/// Makes the table.
pub(crate) const CREATE_TEXT: &str =
    "CREATE TABLE charges (number INT NOT NULL, name TEXT NOT NULL, kind INTEGER NOT NULL, calc INTEGER NOT NULL, \
     value INTEGER NOT NULL, PRIMARY KEY (number)) STRICT";

/// The table in words that a schema found is compared with.
pub(crate) const WORDS: TableWords = TableWords {
    tree: 9,
    name: "charges",
    columns: &[
        ColumnWords::Int("number"),
        ColumnWords::Text("name"),
        ColumnWords::Int("kind"),
        ColumnWords::Int("calc"),
        ColumnWords::Int("value"),
    ],
    rowid: None,
    primary: &[1],
    uniques: &[&[1]],
};

/// The index of its key.
pub(crate) const INDEX: IndexWords = IndexWords {
    table: 9,
    tree: 10,
    name: "sqlite_autoindex_charges_1",
    key: &[1],
};

/// A row of the table charges.
#[derive(Drop)]
pub struct ChargeRow {
    pub number: u32,
    pub name: Text,
    /// 1 at disbursement, 2 with each instalment, 3 overdue, 4 on a due day.
    pub kind: u32,
    /// 1 flat, 2 of an amount, 3 of an interest, 4 of both.
    pub calc: u32,
    /// Cents where it is flat, else hundredths of a percent.
    pub value: i64,
}

#[tactic(auto, using(crate::proofs::RowLemmas::row_is, crate::proofs::CallLemmas::ran_with))]
impl Table for ChargeRow {
    ghost use Rattle.std.proofs.Common.{ap, refl};

    type Key = u32;

    ghost columns = { charges };

    ghost place = { 4 };

    ghost tree = { 9 };

    ghost IsUnder = { IsKnown };

    ghost stored = { charge_row };

    ghost by = { by_charge };

    ghost list = { λ lists. lists.charges };

    ghost put = { put_charge };

    ghost is_at = { is_row_of_charge };

    fn read(row: &Row) -> Result<ChargeRow, Error> {
        has_columns(row, 5)?;
        Ok(ChargeRow {
            number: row.get(0)?,
            kind: row.get(2)?,
            calc: row.get(3)?,
            value: row.get(4)?,
            name: row.get(1)?,
        })
    }

    #[tactic(auto, using(crate::proofs::CallLemmas::ran_with, crate::proofs::CallLemmas::failed_with))]
    fn execute<S: Alter>(&self, tx: &mut Transaction<'_, S>, sql: &str) -> Result<(), Error> {
        run(
            tx,
            sql,
            params![self.number, &self.name, self.kind, self.calc, &self.value],
        )
    }

    fn find_text() -> &'static str {
        "SELECT number, name, kind, calc, value FROM charges WHERE number = ?1 ORDER BY number"
    }

    fn insert_text() -> &'static str {
        "INSERT INTO charges VALUES (?1, ?2, ?3, ?4, ?5)"
    }

    fn every_text() -> &'static str {
        "SELECT number, name, kind, calc, value FROM charges ORDER BY number"
    }

    ghost kept = { kept };

    ghost asked = { asked_known 4 9 charges asked };

    ghost fits = { fits };

    ghost ordered = { ordered };

    ghost once = { charge_once };

    ghost keyed = { refl };

    ghost found = { λ key x. ap is_eq (one_number key x.number) };

    ghost held = { λ trees lists all. all.1.1.1.1.0 };

    ghost changes = { λ x lists trees all. all };

    ghost spared = { λ x lists. refl };
}
