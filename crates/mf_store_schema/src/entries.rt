//! The table entries: its rows, and the texts that read and write them.

ghost use Rattle.std.specs.Ordering.{is_eq};
ghost use Rattle.mf_store_schema.specs.Tables.{entries};
ghost use Rattle.mf_store_schema.specs.EntriesTexts.{kept, fits, ordered, lists_by_2, asked};
ghost use Rattle.mf_store_schema.specs.Keys.{two_numbers, three_numbers};
ghost use Rattle.mf_store_schema.specs.Once.{entry_once};
ghost use Rattle.mf_store_schema.specs.Rows.{by_entry, entry_row, put_entry, is_row_of_entry};
ghost use Rattle.mf_store_schema.specs.Rows.{is_entry_of};
ghost use Rattle.mf_store_schema.specs.Schemas.{IsKnown};
ghost use Rattle.mf_store_schema.specs.Whole.{asked_known};

use crate::table::{Changing, Listed, Table, has_columns, run};
use crate::text::Text;
use crate::words::{ColumnWords, IndexWords, TableWords};
use sqlite::{Alter, Error, Row, Transaction, params};

/// Makes the table.
pub(crate) const CREATE_TEXT: &str =
    "CREATE TABLE entries (office INTEGER NOT NULL, loan INTEGER NOT NULL, seq INTEGER NOT NULL, \
     kind INTEGER NOT NULL, day TEXT NOT NULL, amount INTEGER NOT NULL, instalment INTEGER NOT NULL, \
     portion INTEGER NOT NULL, receipt TEXT, staff TEXT NOT NULL, reversed INTEGER NOT NULL, PRIMARY KEY (office, \
     loan, seq)) STRICT";

/// The table in words that a schema found is compared with.
pub(crate) const WORDS: TableWords = TableWords {
    tree: 15,
    name: "entries",
    columns: &[
        ColumnWords::Int("office"),
        ColumnWords::Int("loan"),
        ColumnWords::Int("seq"),
        ColumnWords::Int("kind"),
        ColumnWords::Text("day"),
        ColumnWords::Int("amount"),
        ColumnWords::Int("instalment"),
        ColumnWords::Int("portion"),
        ColumnWords::MaybeText("receipt"),
        ColumnWords::Text("staff"),
        ColumnWords::Int("reversed"),
    ],
    rowid: None,
    primary: &[1, 2, 3],
    uniques: &[&[1, 2, 3]],
};

/// The index of its key.
pub(crate) const INDEX: IndexWords = IndexWords {
    table: 15,
    tree: 16,
    name: "sqlite_autoindex_entries_1",
    key: &[1, 2, 3],
};

/// A row of the table entries.
#[derive(Drop)]
pub struct EntryRow {
    pub office: u32,
    /// The loan's number within the office.
    pub loan: u32,
    /// The entry's number within the loan, from 1.
    pub seq: u32,
    /// 1 a repayment, 2 a fee, 3 a penalty, 4 a waiver, 5 a write-off, 6 a refund.
    pub kind: u32,
    /// As YYYY-MM-DD: of a repayment the day that it names, of the other kinds the business day on which it was
    /// entered.
    pub day: Text,
    /// Cents; 0 for a waiver, a write-off and a refund.
    pub amount: i64,
    /// The instalment that a fee, a penalty or a waiver is for; else 0.
    pub instalment: u32,
    /// 1 penalties, 2 fees, 3 interest, 4 principal: what a waiver clears; 1 for a penalty, 2 for a fee, else 4.
    pub portion: u32,
    /// Only a repayment may have one.
    pub receipt: Option<Text>,
    /// Who entered it, as office and number: 2/1.
    pub staff: Text,
    /// 1 where it is reversed, else 0.
    pub reversed: u32,
}

#[tactic(auto, using(crate::proofs::RowLemmas::row_is, crate::proofs::CallLemmas::ran_with))]
impl Table for EntryRow {
    ghost use Rattle.std.proofs.Common.{ap, refl};

    type Key = (u32, u32, u32);

    ghost columns = { entries };

    ghost place = { 7 };

    ghost tree = { 15 };

    ghost IsUnder = { IsKnown };

    ghost stored = { entry_row };

    ghost by = { by_entry };

    ghost list = { λ lists. lists.entries };

    ghost put = { put_entry };

    ghost is_at = { λ key. is_row_of_entry key.0 key.1 key.2 };

    fn read(row: &Row) -> Result<EntryRow, Error> {
        has_columns(row, 11)?;
        Ok(EntryRow {
            office: row.get(0)?,
            loan: row.get(1)?,
            seq: row.get(2)?,
            kind: row.get(3)?,
            amount: row.get(5)?,
            instalment: row.get(6)?,
            portion: row.get(7)?,
            reversed: row.get(10)?,
            day: row.get(4)?,
            receipt: row.get(8)?,
            staff: row.get(9)?,
        })
    }

    fn execute<S: Alter>(&self, tx: &mut Transaction<'_, S>, sql: &str) -> Result<(), Error> {
        run(
            tx,
            sql,
            params![
                self.office,
                self.loan,
                self.seq,
                self.kind,
                &self.day,
                &self.amount,
                self.instalment,
                self.portion,
                self.receipt.as_ref(),
                &self.staff,
                self.reversed
            ],
        )
    }

    fn find_text() -> &'static str {
        "SELECT office, loan, seq, kind, day, amount, instalment, portion, receipt, staff, \
         reversed FROM entries WHERE office = ?1 AND loan = ?2 AND seq = ?3 ORDER BY office, loan, seq"
    }

    fn insert_text() -> &'static str {
        "INSERT INTO entries VALUES (?1, ?2, ?3, ?4, ?5, ?6, ?7, ?8, ?9, ?10, ?11)"
    }

    fn every_text() -> &'static str {
        "SELECT office, loan, seq, kind, day, amount, instalment, portion, receipt, staff, \
         reversed FROM entries ORDER BY office, loan, seq"
    }

    ghost kept = { kept };

    ghost asked = { asked_known 7 15 entries asked };

    ghost fits = { fits };

    ghost ordered = { ordered };

    ghost once = { entry_once };

    ghost keyed = { refl };

    ghost found = { λ key x. ap is_eq (three_numbers key.0 key.1 key.2 x.office x.loan x.seq) };

    ghost held = { λ trees lists all. all.1.1.1.1.1.1.1.0 };

    ghost changes = { λ x lists trees all. all };

    ghost spared = { λ x lists. refl };
}

impl Changing for EntryRow {
    fn upsert_text() -> &'static str {
        "INSERT INTO entries VALUES (?1, ?2, ?3, ?4, ?5, ?6, ?7, ?8, ?9, ?10, ?11) ON CONFLICT (office, loan, \
         seq) DO UPDATE SET kind = excluded.kind, day = excluded.day, amount = excluded.amount, \
         instalment = excluded.instalment, portion = excluded.portion, receipt = excluded.receipt, \
         staff = excluded.staff, reversed = excluded.reversed"
    }
}

impl Listed for EntryRow {
    ghost use Rattle.std.proofs.Common.{ap, refl};

    type Part = (u32, u32);

    ghost is_in = { λ loan. is_entry_of loan.0 loan.1 };

    fn list_text() -> &'static str {
        "SELECT office, loan, seq, kind, day, amount, instalment, portion, receipt, staff, \
         reversed FROM entries WHERE office = ?1 AND loan = ?2 ORDER BY office, loan, seq"
    }

    ghost lists = { lists_by_2 };

    ghost partly = { refl };

    ghost listed = { λ part x. ap is_eq (two_numbers part.0 part.1 x.office x.loan) };
}
