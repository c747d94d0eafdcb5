//! The table loans: its rows, and the texts that read and write them.

ghost use Rattle.std.specs.Prelude.{◌≡◌, false, IsTrue, OnOk, IfOk, IfErr, map, filter, take};
ghost use Rattle.mf_base.specs.declared.fault.Fault.TheVariants.{F20};
ghost use Rattle.sqlite.specs.Held.{state};
ghost use Rattle.sqlite.specs.State.{HasCleanDisk};
ghost use Rattle.std.specs.Ordering.{is_eq};
ghost use Rattle.mf_store_schema.specs.Tables.{loans};
ghost use Rattle.mf_store_schema.specs.LoansTexts.{kept, fits, ordered, lists_by_1, asked};
ghost use Rattle.mf_store_schema.specs.Keys.{one_number, two_numbers};
ghost use Rattle.mf_store_schema.specs.Once.{loan_once};
ghost use Rattle.mf_store_schema.specs.Rows.{by_loan, Lists, loan_row, put_loan, is_row_of_loan};
ghost use Rattle.mf_store_schema.specs.Rows.{is_loan_of, is_loan_above};
ghost use Rattle.mf_store_schema.specs.Calls.{IsAsBefore, IsKeeping};
ghost use Rattle.mf_store_schema.specs.Schemas.{IsKnown};
ghost use Rattle.mf_store_schema.specs.Whole.{asked_known};

use crate::table::{Changing, Listed, Table, ask, has_columns, run};
use crate::text::Text;
use crate::words::{ColumnWords, IndexWords, TableWords};
use mf_base::Fault;
use sqlite::{Alter, Connection, Error, Row, Transaction, params};

/// Makes the table.
pub(crate) const CREATE_TEXT: &str =
    "CREATE TABLE loans (office INTEGER NOT NULL, number INTEGER NOT NULL, client INTEGER NOT NULL, \
     product INTEGER NOT NULL, principal INTEGER NOT NULL, periods INTEGER NOT NULL, stage INTEGER NOT NULL, \
     approved TEXT, disbursed TEXT, PRIMARY KEY (office, number)) STRICT";

/// The table in words that a schema found is compared with.
pub(crate) const WORDS: TableWords = TableWords {
    tree: 13,
    name: "loans",
    columns: &[
        ColumnWords::Int("office"),
        ColumnWords::Int("number"),
        ColumnWords::Int("client"),
        ColumnWords::Int("product"),
        ColumnWords::Int("principal"),
        ColumnWords::Int("periods"),
        ColumnWords::Int("stage"),
        ColumnWords::MaybeText("approved"),
        ColumnWords::MaybeText("disbursed"),
    ],
    rowid: None,
    primary: &[1, 2],
    uniques: &[&[1, 2]],
};

/// The index of its key.
pub(crate) const INDEX: IndexWords = IndexWords {
    table: 13,
    tree: 14,
    name: "sqlite_autoindex_loans_1",
    key: &[1, 2],
};

/// A row of the table loans.
#[derive(Drop)]
pub struct LoanRow {
    pub office: u32,
    pub number: u32,
    /// The client's number within the same office.
    pub client: u32,
    pub product: u32,
    /// Cents.
    pub principal: i64,
    pub periods: u32,
    /// The status number: 100, 200, 300, 400 or 500.
    pub stage: u32,
    /// The day of its approval, as YYYY-MM-DD.
    pub approved: Option<Text>,
    /// The day of its disbursement, as YYYY-MM-DD.
    pub disbursed: Option<Text>,
}

#[tactic(auto, using(crate::proofs::RowLemmas::row_is, crate::proofs::CallLemmas::ran_with))]
impl Table for LoanRow {
    ghost use Rattle.std.proofs.Common.{ap, refl};

    type Key = (u32, u32);

    ghost columns = { loans };

    ghost place = { 6 };

    ghost tree = { 13 };

    ghost IsUnder = { IsKnown };

    ghost stored = { loan_row };

    ghost by = { by_loan };

    ghost list = { λ lists. lists.loans };

    ghost put = { put_loan };

    ghost is_at = { λ key. is_row_of_loan key.0 key.1 };

    fn read(row: &Row) -> Result<LoanRow, Error> {
        has_columns(row, 9)?;
        Ok(LoanRow {
            office: row.get(0)?,
            number: row.get(1)?,
            client: row.get(2)?,
            product: row.get(3)?,
            principal: row.get(4)?,
            periods: row.get(5)?,
            stage: row.get(6)?,
            approved: row.get(7)?,
            disbursed: row.get(8)?,
        })
    }

    #[tactic(auto, using(crate::proofs::CallLemmas::ran_with, crate::proofs::CallLemmas::failed_with))]
    fn execute<S: Alter>(&self, tx: &mut Transaction<'_, S>, sql: &str) -> Result<(), Error> {
        run(
            tx,
            sql,
            params![
                self.office,
                self.number,
                self.client,
                self.product,
                &self.principal,
                self.periods,
                self.stage,
                self.approved.as_ref(),
                self.disbursed.as_ref()
            ],
        )
    }

    fn find_text() -> &'static str {
        "SELECT office, number, client, product, principal, periods, stage, approved, \
         disbursed FROM loans WHERE office = ?1 AND number = ?2 ORDER BY office, number"
    }

    fn insert_text() -> &'static str {
        "INSERT INTO loans VALUES (?1, ?2, ?3, ?4, ?5, ?6, ?7, ?8, ?9)"
    }

    fn every_text() -> &'static str {
        "SELECT office, number, client, product, principal, periods, stage, approved, \
         disbursed FROM loans ORDER BY office, number"
    }

    ghost kept = { kept };

    ghost asked = { asked_known 6 13 loans asked };

    ghost fits = { fits };

    ghost ordered = { ordered };

    ghost once = { loan_once };

    ghost keyed = { refl };

    ghost found = { λ key x. ap is_eq (two_numbers key.0 key.1 x.office x.number) };

    ghost held = { λ trees lists all. all.1.1.1.1.1.1.0 };

    ghost changes = { λ x lists trees all. all };

    ghost spared = { λ x lists. refl };
}

impl Changing for LoanRow {
    fn upsert_text() -> &'static str {
        "INSERT INTO loans VALUES (?1, ?2, ?3, ?4, ?5, ?6, ?7, ?8, ?9) ON CONFLICT (office, \
         number) DO UPDATE SET client = excluded.client, product = excluded.product, \
         principal = excluded.principal, periods = excluded.periods, stage = excluded.stage, \
         approved = excluded.approved, disbursed = excluded.disbursed"
    }
}

impl Listed for LoanRow {
    ghost use Rattle.std.proofs.Common.{ap, refl};

    type Part = u32;

    ghost is_in = { is_loan_of };

    fn list_text() -> &'static str {
        "SELECT office, number, client, product, principal, periods, stage, approved, \
         disbursed FROM loans WHERE office = ?1 ORDER BY office, number"
    }

    ghost lists = { lists_by_1 };

    ghost partly = { refl };

    ghost listed = { λ part x. ap is_eq (one_number part x.office) };
}

/// The first 100 rows of an office under numbers above one, in the order of their numbers.
pub fn loans_above<S: Alter>(
    connection: &mut Connection<S>,
    office: u32,
    after: u32,
) -> Result<Vec<Row>, Fault>
    requires alone { connection.old.in_transaction ≡ false }
    ensures kept { IsAsBefore (state S.Store connection.old) (state S.Store connection.new) }
    ensures gives_up { IfErr result (λ fault. fault ≡ F20) }
    ensures open { HasCleanDisk (state S.Store connection.new)
        → OnOk result (IsTrue (state S.Store connection.new).is_open) }
    ensures rows { HasCleanDisk (state S.Store connection.new) → (lists : Lists)
        → IsKeeping (state S.Store connection.old) lists → IfOk result (λ rows. rows.items
        ≡ take 100 (map loan_row (filter (is_loan_above office after) lists.loans))) }
    ensures mode { connection.new.in_transaction ≡ false }
{
    ask(
        connection,
        "SELECT office, number, client, product, principal, periods, stage, approved, \
         disbursed FROM loans WHERE office = ?1 AND number > ?2 ORDER BY office, number LIMIT 100",
        params![office, after],
    )
}
