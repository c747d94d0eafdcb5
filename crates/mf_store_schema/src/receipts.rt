//! The table receipts: its rows, and the texts that read and write them.

ghost use Rattle.std.specs.Prelude.{◌≡◌, false, IsTrue, OnOk, IfOk, IfErr, find};
ghost use Rattle.mf_base.specs.declared.fault.Fault.TheVariants.{F20};
ghost use Rattle.sqlite.specs.Held.{state};
ghost use Rattle.sqlite.specs.State.{HasCleanDisk};
ghost use Rattle.std.specs.Ordering.{is_eq};
ghost use Rattle.mf_store_schema.specs.Tables.{receipts};
ghost use Rattle.mf_store_schema.specs.ReceiptsTexts.{kept, fits, ordered, asked};
ghost use Rattle.mf_store_schema.specs.Keys.{number_and_text};
ghost use Rattle.mf_store_schema.specs.Once.{receipt_once};
ghost use Rattle.mf_store_schema.specs.Rows.{by_receipt, Lists, receipt_row, put_receipt};
ghost use Rattle.mf_store_schema.specs.Rows.{is_row_of_receipt};
ghost use Rattle.mf_store_schema.specs.Calls.{IsAsBefore, IsKeeping};
ghost use Rattle.mf_store_schema.specs.Schemas.{IsKnown};
ghost use Rattle.mf_store_schema.specs.Whole.{asked_known};

use crate::table::{Table, ask, first, has_columns, run};
use crate::text::Text;
use crate::words::{ColumnWords, IndexWords, TableWords};
use mf_base::Fault;
use sqlite::{Alter, Connection, Error, Row, Transaction, params};

/// Makes the table.
pub(crate) const CREATE_TEXT: &str =
    "CREATE TABLE receipts (office INTEGER NOT NULL, receipt TEXT NOT NULL, loan INTEGER NOT NULL, \
     seq INTEGER NOT NULL, PRIMARY KEY (office, receipt)) STRICT";

/// The table in words that a schema found is compared with.
pub(crate) const WORDS: TableWords = TableWords {
    tree: 17,
    name: "receipts",
    columns: &[
        ColumnWords::Int("office"),
        ColumnWords::Text("receipt"),
        ColumnWords::Int("loan"),
        ColumnWords::Int("seq"),
    ],
    rowid: None,
    primary: &[1, 2],
    uniques: &[&[1, 2]],
};

/// The index of its key.
pub(crate) const INDEX: IndexWords = IndexWords {
    table: 17,
    tree: 18,
    name: "sqlite_autoindex_receipts_1",
    key: &[1, 2],
};

/// A row of the table receipts.
#[derive(Drop)]
pub struct ReceiptRow {
    pub office: u32,
    pub receipt: Text,
    /// The number, within the office, of the loan whose entry carries it.
    pub loan: u32,
    /// That entry's number within the loan.
    pub seq: u32,
}

#[tactic(auto, using(crate::proofs::RowLemmas::row_is, crate::proofs::CallLemmas::ran_with))]
impl Table for ReceiptRow {
    ghost use Rattle.std.proofs.Common.{ap, refl};

    type Key = (u32, Text);

    ghost columns = { receipts };

    ghost place = { 8 };

    ghost tree = { 17 };

    ghost IsUnder = { IsKnown };

    ghost stored = { receipt_row };

    ghost by = { by_receipt };

    ghost list = { λ lists. lists.receipts };

    ghost put = { put_receipt };

    ghost is_at = { λ key. is_row_of_receipt key.0 key.1 };

    fn read(row: &Row) -> Result<ReceiptRow, Error> {
        has_columns(row, 4)?;
        Ok(ReceiptRow {
            office: row.get(0)?,
            loan: row.get(2)?,
            seq: row.get(3)?,
            receipt: row.get(1)?,
        })
    }

    #[tactic(auto, using(crate::proofs::CallLemmas::ran_with, crate::proofs::CallLemmas::failed_with))]
    fn execute<S: Alter>(&self, tx: &mut Transaction<'_, S>, sql: &str) -> Result<(), Error> {
        run(
            tx,
            sql,
            params![self.office, &self.receipt, self.loan, self.seq],
        )
    }

    fn find_text() -> &'static str {
        "SELECT office, receipt, loan, seq FROM receipts WHERE office = ?1 AND receipt = ?2 ORDER BY office, receipt"
    }

    fn insert_text() -> &'static str {
        "INSERT INTO receipts VALUES (?1, ?2, ?3, ?4)"
    }

    fn every_text() -> &'static str {
        "SELECT office, receipt, loan, seq FROM receipts ORDER BY office, receipt"
    }

    ghost kept = { kept };

    ghost asked = { asked_known 8 17 receipts asked };

    ghost fits = { fits };

    ghost ordered = { ordered };

    ghost once = { receipt_once };

    ghost keyed = { refl };

    ghost found = { λ key x. ap is_eq (number_and_text key.0 key.1 x.office x.receipt) };

    ghost held = { λ trees lists all. all.1.1.1.1.1.1.1.1.0 };

    ghost changes = { λ x lists trees all. all };

    ghost spared = { λ x lists. refl };
}

/// The row of an office's receipt, if there is one: what `find_row` finds under the two, for a text that the caller
/// keeps.
pub fn find_receipt<S: Alter>(
    connection: &mut Connection<S>,
    office: u32,
    receipt: &str,
) -> Result<Option<ReceiptRow>, Fault>
    requires alone { connection.old.in_transaction ≡ false }
    ensures kept { IsAsBefore (state S.Store connection.old) (state S.Store connection.new) }
    ensures gives_up { IfErr result (λ fault. fault ≡ F20) }
    ensures open { HasCleanDisk (state S.Store connection.new)
        → OnOk result (IsTrue (state S.Store connection.new).is_open) }
    ensures row { HasCleanDisk (state S.Store connection.new) → (lists : Lists)
        → IsKeeping (state S.Store connection.old) lists
        → IfOk result (λ x. x ≡ find (is_row_of_receipt office receipt.now) lists.receipts) }
    ensures mode { connection.new.in_transaction ≡ false }
{
    let rows = ask(
        connection,
        ReceiptRow::find_text(),
        params![office, receipt],
    )?;
    first(&rows)
}
