//! The table shares: its rows, and the texts that read, write and remove them.

ghost use Rattle.std.specs.Prelude.{◌≡◌, IsTrue, OnOk};
ghost use Rattle.sqlite.specs.Held.{state};
ghost use Rattle.sqlite.specs.State.{HasCleanDisk, KeepsCommit, Survives};
ghost use Rattle.std.specs.Ordering.{is_eq};
ghost use Rattle.mf_store_schema.specs.Tables.{shares};
ghost use Rattle.mf_store_schema.specs.SharesTexts.{kept, fits, ordered, lists_by_2};
ghost use Rattle.mf_store_schema.specs.Keys.{two_numbers, four_numbers};
ghost use Rattle.mf_store_schema.specs.Once.{share_once};
ghost use Rattle.mf_store_schema.specs.Rows.{by_share, share_row, put_share, is_row_of_share, is_share_of, drop_shares};
ghost use Rattle.mf_store_schema.specs.Writes.{Putting};
ghost use Rattle.mf_store_schema.specs.Tables.{IsPresent};
ghost use Rattle.mf_store_schema.specs.Whole.{asked_present};

use crate::table::{Changing, Listed, Table, has_columns, run};
use crate::words::{ColumnWords, IndexWords, TableWords};
use sqlite::{Alter, Error, Row, Transaction, params};

/// Makes the table.
pub(crate) const CREATE_TEXT: &str =
    "CREATE TABLE shares (office INTEGER NOT NULL, loan INTEGER NOT NULL, seq INTEGER NOT NULL, \
     place INTEGER NOT NULL, instalment INTEGER NOT NULL, portion INTEGER NOT NULL, how INTEGER NOT NULL, \
     amount INTEGER NOT NULL, PRIMARY KEY (office, loan, seq, place)) STRICT";

/// The table in words that a schema found is compared with.
pub(crate) const WORDS: TableWords = TableWords {
    tree: 21,
    name: "shares",
    columns: &[
        ColumnWords::Int("office"),
        ColumnWords::Int("loan"),
        ColumnWords::Int("seq"),
        ColumnWords::Int("place"),
        ColumnWords::Int("instalment"),
        ColumnWords::Int("portion"),
        ColumnWords::Int("how"),
        ColumnWords::Int("amount"),
    ],
    rowid: None,
    primary: &[1, 2, 3, 4],
    uniques: &[&[1, 2, 3, 4]],
};

/// The index of its key.
pub(crate) const INDEX: IndexWords = IndexWords {
    table: 21,
    tree: 22,
    name: "sqlite_autoindex_shares_1",
    key: &[1, 2, 3, 4],
};

/// A row of the table shares: what an entry settles of one portion of one instalment.
#[derive(Drop)]
pub struct ShareRow {
    pub office: u32,
    /// The loan's number within the office.
    pub loan: u32,
    /// The entry's number within the loan.
    pub seq: u32,
    /// The share's place within the entry, from 1.
    pub place: u32,
    pub instalment: u32,
    /// 1 penalties, 2 fees, 3 interest, 4 principal.
    pub portion: u32,
    /// 1 paid, 2 waived, 3 written off.
    pub how: u32,
    /// Cents.
    pub amount: i64,
}

#[tactic(auto, using(crate::proofs::RowLemmas::row_is, crate::proofs::CallLemmas::ran_with))]
impl Table for ShareRow {
    ghost use Rattle.std.proofs.Common.{ap, refl};

    type Key = (u32, u32, u32, u32);

    ghost columns = { shares };

    ghost place = { 10 };

    ghost tree = { 21 };

    ghost IsUnder = { IsPresent };

    ghost stored = { share_row };

    ghost by = { by_share };

    ghost list = { λ lists. lists.shares };

    ghost put = { put_share };

    ghost is_at = { λ key. is_row_of_share key.0 key.1 key.2 key.3 };

    fn read(row: &Row) -> Result<ShareRow, Error> {
        has_columns(row, 8)?;
        Ok(ShareRow {
            office: row.get(0)?,
            loan: row.get(1)?,
            seq: row.get(2)?,
            place: row.get(3)?,
            instalment: row.get(4)?,
            portion: row.get(5)?,
            how: row.get(6)?,
            amount: row.get(7)?,
        })
    }

    #[tactic(auto, using(crate::proofs::CallLemmas::ran_with, crate::proofs::CallLemmas::failed_with))]
    fn execute<S: Alter>(&self, tx: &mut Transaction<'_, S>, sql: &str) -> Result<(), Error> {
        run(
            tx,
            sql,
            params![
                self.office,
                self.loan,
                self.seq,
                self.place,
                self.instalment,
                self.portion,
                self.how,
                &self.amount
            ],
        )
    }

    fn find_text() -> &'static str {
        "SELECT office, loan, seq, place, instalment, portion, how, \
         amount FROM shares WHERE office = ?1 AND loan = ?2 AND seq = ?3 AND place = ?4 ORDER BY office, loan, seq, \
         place"
    }

    fn insert_text() -> &'static str {
        "INSERT INTO shares VALUES (?1, ?2, ?3, ?4, ?5, ?6, ?7, ?8)"
    }

    fn every_text() -> &'static str {
        "SELECT office, loan, seq, place, instalment, portion, how, amount FROM shares ORDER BY office, loan, seq, \
         place"
    }

    ghost kept = { kept };

    ghost asked = { asked_present 10 21 shares kept };

    ghost fits = { fits };

    ghost ordered = { ordered };

    ghost once = { share_once };

    ghost keyed = { refl };

    ghost found = { λ key x. ap is_eq (four_numbers key.0 key.1 key.2 key.3 x.office x.loan x.seq x.place) };

    ghost held = { λ trees lists all. all.1.1.1.1.1.1.1.1.1.1.0 };

    ghost changes = { λ x lists trees all. all };

    ghost spared = { λ x lists. refl };
}

impl Changing for ShareRow {
    fn upsert_text() -> &'static str {
        "INSERT INTO shares VALUES (?1, ?2, ?3, ?4, ?5, ?6, ?7, ?8) ON CONFLICT (office, loan, seq, \
         place) DO UPDATE SET instalment = excluded.instalment, portion = excluded.portion, how = excluded.how, \
         amount = excluded.amount"
    }
}

impl Listed for ShareRow {
    ghost use Rattle.std.proofs.Common.{ap, refl};

    type Part = (u32, u32);

    ghost is_in = { λ loan. is_share_of loan.0 loan.1 };

    fn list_text() -> &'static str {
        "SELECT office, loan, seq, place, instalment, portion, how, \
         amount FROM shares WHERE office = ?1 AND loan = ?2 ORDER BY office, loan, seq, place"
    }

    ghost lists = { lists_by_2 };

    ghost partly = { refl };

    ghost listed = { λ part x. ap is_eq (two_numbers part.0 part.1 x.office x.loan) };
}

/// The entry that shares belong to.
#[derive(Drop)]
pub struct EntryKey {
    pub office: u32,
    /// The loan's number within the office.
    pub loan: u32,
    /// The entry's number within the loan.
    pub seq: u32,
}

impl EntryKey {
    /// Removes all shares of the entry.
    pub(crate) fn remove_shares<S: Alter>(&self, tx: &mut Transaction<'_, S>) -> Result<(), Error>
        ensures same_reference { tx.new.conn.ghost_name ≡ tx.old.conn.ghost_name }
        ensures ok { HasCleanDisk (state S.Store tx.new.conn.now)
            → IsTrue (state S.Store tx.old.conn.now).in_transaction
            → OnOk result (Putting (drop_shares self.now) (state S.Store tx.old.conn.now)
            (state S.Store tx.new.conn.now)) }
        ensures kept { HasCleanDisk (state S.Store tx.new.conn.now) → KeepsCommit (state S.Store tx.old.conn.now)
            (state S.Store tx.new.conn.now) }
        ensures survives { Survives (state S.Store tx.old.conn.now) (state S.Store tx.new.conn.now) (λ _. ⊥) }
    {
        run(
            tx,
            "DELETE FROM shares WHERE office = ?1 AND loan = ?2 AND seq = ?3",
            params![self.office, self.loan, self.seq],
        )
    }
}
