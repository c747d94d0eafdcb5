//! The table meta, of one row: the schema's number and the business day.

ghost use Rattle.std.specs.Ordering.{is_eq};
ghost use Rattle.mf_store_schema.specs.Tables.{meta};
ghost use Rattle.mf_store_schema.specs.MetaTexts.{kept, fits, ordered, asked};
ghost use Rattle.mf_store_schema.specs.Keys.{one_number};
ghost use Rattle.mf_store_schema.specs.Once.{meta_once};
ghost use Rattle.mf_store_schema.specs.Rows.{by_meta, meta_row, put_meta, is_row_of_meta};
ghost use Rattle.mf_store_schema.specs.Schemas.{IsKnown};
ghost use Rattle.mf_store_schema.specs.Whole.{asked_known};

use crate::table::{Changing, Table, has_columns, run};
use crate::text::Text;
use crate::words::{ColumnWords, IndexWords, TableWords};
use sqlite::{Alter, Error, Row, Transaction, params};

/// Makes the table.
pub(crate) const CREATE_TEXT: &str =
    "CREATE TABLE meta (one INT NOT NULL, schema INTEGER NOT NULL, day TEXT NOT NULL, PRIMARY KEY (one)) STRICT";

/// The table in words that a schema found is compared with.
pub(crate) const WORDS: TableWords = TableWords {
    tree: 0,
    name: "meta",
    columns: &[
        ColumnWords::Int("one"),
        ColumnWords::Int("schema"),
        ColumnWords::Text("day"),
    ],
    rowid: None,
    primary: &[1],
    uniques: &[&[1]],
};

/// The index of its key.
pub(crate) const INDEX: IndexWords = IndexWords {
    table: 0,
    tree: 1,
    name: "sqlite_autoindex_meta_1",
    key: &[1],
};

/// The number of the schema that the program makes.
pub const SCHEMA: u32 = 2;

/// The one row of the table meta: what the file is, and the business day.
#[derive(Drop)]
pub struct MetaRow {
    /// Always 1.
    pub one: u32,
    pub schema: u32,
    /// The business day, as YYYY-MM-DD.
    pub day: Text,
}

#[tactic(auto, using(crate::proofs::RowLemmas::row_is, crate::proofs::CallLemmas::ran_with))]
impl Table for MetaRow {
    ghost use Rattle.std.proofs.Common.{ap, refl};

    type Key = u32;

    ghost columns = { meta };

    ghost place = { 0 };

    ghost tree = { 0 };

    ghost IsUnder = { IsKnown };

    ghost stored = { meta_row };

    ghost by = { by_meta };

    ghost list = { λ lists. lists.meta };

    ghost put = { put_meta };

    ghost is_at = { is_row_of_meta };

    fn read(row: &Row) -> Result<MetaRow, Error> {
        has_columns(row, 3)?;
        Ok(MetaRow {
            one: row.get(0)?,
            schema: row.get(1)?,
            day: row.get(2)?,
        })
    }

    #[tactic(auto, using(crate::proofs::CallLemmas::ran_with, crate::proofs::CallLemmas::failed_with))]
    fn execute<S: Alter>(&self, tx: &mut Transaction<'_, S>, sql: &str) -> Result<(), Error> {
        run(tx, sql, params![self.one, self.schema, &self.day])
    }

    fn find_text() -> &'static str {
        "SELECT one, schema, day FROM meta WHERE one = ?1 ORDER BY one"
    }

    fn insert_text() -> &'static str {
        "INSERT INTO meta VALUES (?1, ?2, ?3)"
    }

    fn every_text() -> &'static str {
        "SELECT one, schema, day FROM meta ORDER BY one"
    }

    ghost kept = { kept };

    ghost asked = { asked_known 0 0 meta asked };

    ghost fits = { fits };

    ghost ordered = { ordered };

    ghost once = { meta_once };

    ghost keyed = { refl };

    ghost found = { λ key x. ap is_eq (one_number key x.one) };

    ghost held = { λ trees lists all. all.0 };

    ghost changes = { λ x lists trees all. all };

    ghost spared = { λ x lists. refl };
}

impl Changing for MetaRow {
    fn upsert_text() -> &'static str {
        "INSERT INTO meta VALUES (?1, ?2, ?3) ON CONFLICT (one) DO UPDATE SET schema = excluded.schema, \
         day = excluded.day"
    }
}
