//! The table instalments: its rows, and the texts that read and write them.

ghost use Rattle.std.specs.Prelude.{◌≡◌, ◌≢◌, ◌+◌, IfOk, IfErr};
ghost use Rattle.std.specs.Ordering.{is_eq};
ghost use Rattle.sqlite.specs.Order.{column};
ghost use Rattle.sqlite.specs.declared.error.ErrorCode.TheVariants.{OutOfMemory};
ghost use Rattle.sqlite.specs.declared.types.Value.TheVariants.{Int};
ghost use Rattle.mf_store_schema.specs.Fields.{IsAmount};
ghost use Rattle.mf_store_schema.specs.Tables.{instalments};
ghost use Rattle.mf_store_schema.specs.InstalmentsTexts.{kept, fits, ordered, lists_by_2};
ghost use Rattle.mf_store_schema.specs.Keys.{two_numbers, three_numbers};
ghost use Rattle.mf_store_schema.specs.Once.{instalment_once};
ghost use Rattle.mf_store_schema.specs.Rows.{by_instalment, instalment_row, put_instalment, is_row_of_instalment};
ghost use Rattle.mf_store_schema.specs.Rows.{is_instalment_of};
ghost use Rattle.mf_store_schema.specs.Tables.{IsPresent};
ghost use Rattle.mf_store_schema.specs.Whole.{asked_present};

use crate::table::{Changing, Listed, Table, has_columns, run};
use crate::text::Text;
use crate::words::{ColumnWords, IndexWords, TableWords};
use sqlite::{Alter, Error, Row, Transaction, params};

/// Makes the table.
pub(crate) const CREATE_TEXT: &str =
    "CREATE TABLE instalments (office INTEGER NOT NULL, loan INTEGER NOT NULL, number INTEGER NOT NULL, \
     due TEXT NOT NULL, owed_penalty INTEGER NOT NULL, paid_penalty INTEGER NOT NULL, \
     waived_penalty INTEGER NOT NULL, written_off_penalty INTEGER NOT NULL, owed_fee INTEGER NOT NULL, \
     paid_fee INTEGER NOT NULL, waived_fee INTEGER NOT NULL, written_off_fee INTEGER NOT NULL, \
     owed_interest INTEGER NOT NULL, paid_interest INTEGER NOT NULL, waived_interest INTEGER NOT NULL, \
     written_off_interest INTEGER NOT NULL, owed_principal INTEGER NOT NULL, paid_principal INTEGER NOT NULL, \
     waived_principal INTEGER NOT NULL, written_off_principal INTEGER NOT NULL, PRIMARY KEY (office, loan, \
     number)) STRICT";

/// The table in words that a schema found is compared with.
pub(crate) const WORDS: TableWords = TableWords {
    tree: 19,
    name: "instalments",
    columns: &[
        ColumnWords::Int("office"),
        ColumnWords::Int("loan"),
        ColumnWords::Int("number"),
        ColumnWords::Text("due"),
        ColumnWords::Int("owed_penalty"),
        ColumnWords::Int("paid_penalty"),
        ColumnWords::Int("waived_penalty"),
        ColumnWords::Int("written_off_penalty"),
        ColumnWords::Int("owed_fee"),
        ColumnWords::Int("paid_fee"),
        ColumnWords::Int("waived_fee"),
        ColumnWords::Int("written_off_fee"),
        ColumnWords::Int("owed_interest"),
        ColumnWords::Int("paid_interest"),
        ColumnWords::Int("waived_interest"),
        ColumnWords::Int("written_off_interest"),
        ColumnWords::Int("owed_principal"),
        ColumnWords::Int("paid_principal"),
        ColumnWords::Int("waived_principal"),
        ColumnWords::Int("written_off_principal"),
    ],
    rowid: None,
    primary: &[1, 2, 3],
    uniques: &[&[1, 2, 3]],
};

/// The index of its key.
pub(crate) const INDEX: IndexWords = IndexWords {
    table: 19,
    tree: 20,
    name: "sqlite_autoindex_instalments_1",
    key: &[1, 2, 3],
};

/// The sums of a portion, in cents: what is owed, and of it what is paid, waived and written off.
#[derive(Clone, Copy)]
pub struct PortionSums {
    pub owed: i64,
    pub paid: i64,
    pub waived: i64,
    pub written_off: i64,
}

impl PortionSums {
    /// The sums that four columns keep, from this one on. At any error but running out of memory one of these keeps no
    /// amount.
    pub fn read(row: &Row, first: u32) -> Result<PortionSums, Error>
        ensures sums { IfOk result (λ sums. (column row.now first ≡ Int sums.owed)
            × (column row.now (first + 1) ≡ Int sums.paid) × (column row.now (first + 2) ≡ Int sums.waived)
            × (column row.now (first + 3) ≡ Int sums.written_off)) }
        ensures none { IfErr result (λ e. e ≢ Error.SqliteFailure OutOfMemory
            → ¬ (IsAmount (column row.now first) × IsAmount (column row.now (first + 1))
            × IsAmount (column row.now (first + 2)) × IsAmount (column row.now (first + 3)))) }
    {
        let first = first as usize;
        Ok(PortionSums {
            owed: row.get(first)?,
            paid: row.get(first + 1)?,
            waived: row.get(first + 2)?,
            written_off: row.get(first + 3)?,
        })
    }
}

/// A row of the table instalments.
#[derive(Drop)]
pub struct InstalmentRow {
    pub office: u32,
    /// The loan's number within the office.
    pub loan: u32,
    /// The instalment's number within the loan, from 1.
    pub number: u32,
    /// The day on which it is due, as YYYY-MM-DD.
    pub due: Text,
    pub penalty: PortionSums,
    pub fee: PortionSums,
    pub interest: PortionSums,
    pub principal: PortionSums,
}

#[tactic(auto, using(crate::proofs::RowLemmas::row_is, crate::proofs::CallLemmas::ran_with))]
impl Table for InstalmentRow {
    ghost use Rattle.std.proofs.Common.{ap, refl};

    type Key = (u32, u32, u32);

    ghost columns = { instalments };

    ghost place = { 9 };

    ghost tree = { 19 };

    ghost IsUnder = { IsPresent };

    ghost stored = { instalment_row };

    ghost by = { by_instalment };

    ghost list = { λ lists. lists.instalments };

    ghost put = { put_instalment };

    ghost is_at = { λ key. is_row_of_instalment key.0 key.1 key.2 };

    fn read(row: &Row) -> Result<InstalmentRow, Error> {
        has_columns(row, 20)?;
        Ok(InstalmentRow {
            office: row.get(0)?,
            loan: row.get(1)?,
            number: row.get(2)?,
            penalty: PortionSums::read(row, 4)?,
            fee: PortionSums::read(row, 8)?,
            interest: PortionSums::read(row, 12)?,
            principal: PortionSums::read(row, 16)?,
            due: row.get(3)?,
        })
    }

    fn execute<S: Alter>(&self, tx: &mut Transaction<'_, S>, sql: &str) -> Result<(), Error> {
        run(
            tx,
            sql,
            params![
                self.office,
                self.loan,
                self.number,
                &self.due,
                &self.penalty.owed,
                &self.penalty.paid,
                &self.penalty.waived,
                &self.penalty.written_off,
                &self.fee.owed,
                &self.fee.paid,
                &self.fee.waived,
                &self.fee.written_off,
                &self.interest.owed,
                &self.interest.paid,
                &self.interest.waived,
                &self.interest.written_off,
                &self.principal.owed,
                &self.principal.paid,
                &self.principal.waived,
                &self.principal.written_off
            ],
        )
    }

    fn find_text() -> &'static str {
        "SELECT office, loan, number, due, owed_penalty, paid_penalty, waived_penalty, written_off_penalty, \
         owed_fee, paid_fee, waived_fee, written_off_fee, owed_interest, paid_interest, waived_interest, \
         written_off_interest, owed_principal, paid_principal, waived_principal, \
         written_off_principal FROM instalments WHERE office = ?1 AND loan = ?2 AND number = ?3 ORDER BY office, \
         loan, number"
    }

    fn insert_text() -> &'static str {
        "INSERT INTO instalments VALUES (?1, ?2, ?3, ?4, ?5, ?6, ?7, ?8, ?9, ?10, ?11, ?12, ?13, ?14, ?15, ?16, \
         ?17, ?18, ?19, ?20)"
    }

    fn every_text() -> &'static str {
        "SELECT office, loan, number, due, owed_penalty, paid_penalty, waived_penalty, written_off_penalty, \
         owed_fee, paid_fee, waived_fee, written_off_fee, owed_interest, paid_interest, waived_interest, \
         written_off_interest, owed_principal, paid_principal, waived_principal, \
         written_off_principal FROM instalments ORDER BY office, loan, number"
    }

    ghost kept = { kept };

    ghost asked = { asked_present 9 19 instalments kept };

    ghost fits = { fits };

    ghost ordered = { ordered };

    ghost once = { instalment_once };

    ghost keyed = { refl };

    ghost found = { λ key x. ap is_eq (three_numbers key.0 key.1 key.2 x.office x.loan x.number) };

    ghost held = { λ trees lists all. all.1.1.1.1.1.1.1.1.1.0 };

    ghost changes = { λ x lists trees all. all };

    ghost spared = { λ x lists. refl };
}

impl Changing for InstalmentRow {
    fn upsert_text() -> &'static str {
        "INSERT INTO instalments VALUES (?1, ?2, ?3, ?4, ?5, ?6, ?7, ?8, ?9, ?10, ?11, ?12, ?13, ?14, ?15, ?16, \
         ?17, ?18, ?19, ?20) ON CONFLICT (office, loan, number) DO UPDATE SET due = excluded.due, \
         owed_penalty = excluded.owed_penalty, paid_penalty = excluded.paid_penalty, \
         waived_penalty = excluded.waived_penalty, written_off_penalty = excluded.written_off_penalty, \
         owed_fee = excluded.owed_fee, paid_fee = excluded.paid_fee, waived_fee = excluded.waived_fee, \
         written_off_fee = excluded.written_off_fee, owed_interest = excluded.owed_interest, \
         paid_interest = excluded.paid_interest, waived_interest = excluded.waived_interest, \
         written_off_interest = excluded.written_off_interest, owed_principal = excluded.owed_principal, \
         paid_principal = excluded.paid_principal, waived_principal = excluded.waived_principal, \
         written_off_principal = excluded.written_off_principal"
    }
}

impl Listed for InstalmentRow {
    ghost use Rattle.std.proofs.Common.{ap, refl};

    type Part = (u32, u32);

    ghost is_in = { λ loan. is_instalment_of loan.0 loan.1 };

    fn list_text() -> &'static str {
        "SELECT office, loan, number, due, owed_penalty, paid_penalty, waived_penalty, written_off_penalty, \
         owed_fee, paid_fee, waived_fee, written_off_fee, owed_interest, paid_interest, waived_interest, \
         written_off_interest, owed_principal, paid_principal, waived_principal, \
         written_off_principal FROM instalments WHERE office = ?1 AND loan = ?2 ORDER BY office, loan, number"
    }

    ghost lists = { lists_by_2 };

    ghost partly = { refl };

    ghost listed = { λ part x. ap is_eq (two_numbers part.0 part.1 x.office x.loan) };
}
