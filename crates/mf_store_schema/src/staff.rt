//! The table staff: its rows, and the texts that read and write them.

ghost use Rattle.std.specs.Ordering.{is_eq};
ghost use Rattle.mf_store_schema.specs.Tables.{staff};
ghost use Rattle.mf_store_schema.specs.StaffTexts.{kept, fits, ordered, lists_by_1, asked};
ghost use Rattle.mf_store_schema.specs.Keys.{one_number, two_numbers};
ghost use Rattle.mf_store_schema.specs.Once.{staff_once};
ghost use Rattle.mf_store_schema.specs.Rows.{by_staff, staff_row, put_staff, is_row_of_staff};
ghost use Rattle.mf_store_schema.specs.Rows.{is_staff_of};
ghost use Rattle.mf_store_schema.specs.Schemas.{IsKnown};
ghost use Rattle.mf_store_schema.specs.Whole.{asked_known};

use crate::table::{Listed, Table, has_columns, run};
use crate::text::Text;
use crate::words::{ColumnWords, IndexWords, TableWords};
use sqlite::{Alter, Error, Row, Transaction, params};

/// Makes the table.
pub(crate) const CREATE_TEXT: &str =
    "CREATE TABLE staff (office INTEGER NOT NULL, number INTEGER NOT NULL, name TEXT NOT NULL, \
     role INTEGER NOT NULL, PRIMARY KEY (office, number)) STRICT";

/// The table in words that a schema found is compared with.
pub(crate) const WORDS: TableWords = TableWords {
    tree: 5,
    name: "staff",
    columns: &[
        ColumnWords::Int("office"),
        ColumnWords::Int("number"),
        ColumnWords::Text("name"),
        ColumnWords::Int("role"),
    ],
    rowid: None,
    primary: &[1, 2],
    uniques: &[&[1, 2]],
};

/// The index of its key.
pub(crate) const INDEX: IndexWords = IndexWords {
    table: 5,
    tree: 6,
    name: "sqlite_autoindex_staff_1",
    key: &[1, 2],
};

/// A row of the table staff.
#[derive(Drop)]
pub struct StaffRow {
    pub office: u32,
    pub number: u32,
    pub name: Text,
    /// 1 for a teller, 2 for an officer, 3 for a manager.
    pub role: u32,
}

#[tactic(auto, using(crate::proofs::RowLemmas::row_is, crate::proofs::CallLemmas::ran_with))]
impl Table for StaffRow {
    ghost use Rattle.std.proofs.Common.{ap, refl};

    type Key = (u32, u32);

    ghost columns = { staff };

    ghost place = { 2 };

    ghost tree = { 5 };

    ghost IsUnder = { IsKnown };

    ghost stored = { staff_row };

    ghost by = { by_staff };

    ghost list = { λ lists. lists.staff };

    ghost put = { put_staff };

    ghost is_at = { λ key. is_row_of_staff key.0 key.1 };

    fn read(row: &Row) -> Result<StaffRow, Error> {
        has_columns(row, 4)?;
        Ok(StaffRow {
            office: row.get(0)?,
            number: row.get(1)?,
            role: row.get(3)?,
            name: row.get(2)?,
        })
    }

    #[tactic(auto, using(crate::proofs::CallLemmas::ran_with, crate::proofs::CallLemmas::failed_with))]
    fn execute<S: Alter>(&self, tx: &mut Transaction<'_, S>, sql: &str) -> Result<(), Error> {
        run(
            tx,
            sql,
            params![self.office, self.number, &self.name, self.role],
        )
    }

    fn find_text() -> &'static str {
        "SELECT office, number, name, role FROM staff WHERE office = ?1 AND number = ?2 ORDER BY office, number"
    }

    fn insert_text() -> &'static str {
        "INSERT INTO staff VALUES (?1, ?2, ?3, ?4)"
    }

    fn every_text() -> &'static str {
        "SELECT office, number, name, role FROM staff ORDER BY office, number"
    }

    ghost kept = { kept };

    ghost asked = { asked_known 2 5 staff asked };

    ghost fits = { fits };

    ghost ordered = { ordered };

    ghost once = { staff_once };

    ghost keyed = { refl };

    ghost found = { λ key x. ap is_eq (two_numbers key.0 key.1 x.office x.number) };

    ghost held = { λ trees lists all. all.1.1.0 };

    ghost changes = { λ x lists trees all. all };

    ghost spared = { λ x lists. refl };
}

impl Listed for StaffRow {
    ghost use Rattle.std.proofs.Common.{ap, refl};

    type Part = u32;

    ghost is_in = { is_staff_of };

    fn list_text() -> &'static str {
        "SELECT office, number, name, role FROM staff WHERE office = ?1 ORDER BY office, number"
    }

    ghost lists = { lists_by_1 };

    ghost partly = { refl };

    ghost listed = { λ part x. ap is_eq (one_number part x.office) };
}
