//! The table products: its rows, and the texts that read and write them.

ghost use Rattle.std.specs.Ordering.{is_eq};
ghost use Rattle.mf_store_schema.specs.Tables.{products};
ghost use Rattle.mf_store_schema.specs.ProductsTexts.{kept, fits, ordered, asked};
ghost use Rattle.mf_store_schema.specs.Keys.{one_number};
ghost use Rattle.mf_store_schema.specs.Once.{product_once};
ghost use Rattle.mf_store_schema.specs.Rows.{by_product, product_row, put_product, is_row_of_product};
ghost use Rattle.mf_store_schema.specs.Schemas.{IsKnown};
ghost use Rattle.mf_store_schema.specs.Whole.{asked_known};

use crate::table::{Changing, Table, has_columns, run};
use crate::text::Text;
use crate::words::{ColumnWords, IndexWords, TableWords};
use sqlite::{Alter, Error, Row, Transaction, params};

/// Makes the table.
pub(crate) const CREATE_TEXT: &str =
    "CREATE TABLE products (number INT NOT NULL, name TEXT NOT NULL, method INTEGER NOT NULL, rate INTEGER NOT NULL, \
     frequency INTEGER NOT NULL, every INTEGER NOT NULL, principal_grace INTEGER NOT NULL, \
     interest_grace INTEGER NOT NULL, min_principal INTEGER NOT NULL, max_principal INTEGER NOT NULL, \
     min_periods INTEGER NOT NULL, max_periods INTEGER NOT NULL, strategy INTEGER NOT NULL, \
     disbursement_charge INTEGER, instalment_charge INTEGER, overdue_charge INTEGER, retired INTEGER NOT NULL, \
     PRIMARY KEY (number)) STRICT";

/// The table in words that a schema found is compared with.
pub(crate) const WORDS: TableWords = TableWords {
    tree: 11,
    name: "products",
    columns: &[
        ColumnWords::Int("number"),
        ColumnWords::Text("name"),
        ColumnWords::Int("method"),
        ColumnWords::Int("rate"),
        ColumnWords::Int("frequency"),
        ColumnWords::Int("every"),
        ColumnWords::Int("principal_grace"),
        ColumnWords::Int("interest_grace"),
        ColumnWords::Int("min_principal"),
        ColumnWords::Int("max_principal"),
        ColumnWords::Int("min_periods"),
        ColumnWords::Int("max_periods"),
        ColumnWords::Int("strategy"),
        ColumnWords::MaybeInt("disbursement_charge"),
        ColumnWords::MaybeInt("instalment_charge"),
        ColumnWords::MaybeInt("overdue_charge"),
        ColumnWords::Int("retired"),
    ],
    rowid: None,
    primary: &[1],
    uniques: &[&[1]],
};

/// The index of its key.
pub(crate) const INDEX: IndexWords = IndexWords {
    table: 11,
    tree: 12,
    name: "sqlite_autoindex_products_1",
    key: &[1],
};

/// A row of the table products.
#[derive(Drop)]
pub struct ProductRow {
    pub number: u32,
    pub name: Text,
    /// 1 flat, 2 equal principal, 3 equal instalments.
    pub method: u32,
    /// Hundredths of a percent a year.
    pub rate: u32,
    /// 1 by weeks, 2 by months.
    pub frequency: u32,
    pub every: u32,
    pub principal_grace: u32,
    pub interest_grace: u32,
    /// Cents.
    pub min_principal: i64,
    /// Cents.
    pub max_principal: i64,
    pub min_periods: u32,
    pub max_periods: u32,
    /// 1 penalties first, 2 principal first, 3 interest first, 4 what is due first.
    pub strategy: u32,
    pub disbursement_charge: Option<u32>,
    pub instalment_charge: Option<u32>,
    pub overdue_charge: Option<u32>,
    /// 1 where it lends no more, else 0.
    pub retired: u32,
}

impl Table for ProductRow {
    ghost use Rattle.std.proofs.Common.{ap, refl};

    type Key = u32;

    ghost columns = { products };

    ghost place = { 5 };

    ghost tree = { 11 };

    ghost IsUnder = { IsKnown };

    ghost stored = { product_row };

    ghost by = { by_product };

    ghost list = { λ lists. lists.products };

    ghost put = { put_product };

    ghost is_at = { is_row_of_product };

    fn read(row: &Row) -> Result<ProductRow, Error> {
        has_columns(row, 17)?;
        Ok(ProductRow {
            number: row.get(0)?,
            method: row.get(2)?,
            rate: row.get(3)?,
            frequency: row.get(4)?,
            every: row.get(5)?,
            principal_grace: row.get(6)?,
            interest_grace: row.get(7)?,
            min_principal: row.get(8)?,
            max_principal: row.get(9)?,
            min_periods: row.get(10)?,
            max_periods: row.get(11)?,
            strategy: row.get(12)?,
            disbursement_charge: row.get(13)?,
            instalment_charge: row.get(14)?,
            overdue_charge: row.get(15)?,
            retired: row.get(16)?,
            name: row.get(1)?,
        })
    }

    fn execute<S: Alter>(&self, tx: &mut Transaction<'_, S>, sql: &str) -> Result<(), Error> {
        run(
            tx,
            sql,
            params![
                self.number,
                &self.name,
                self.method,
                self.rate,
                self.frequency,
                self.every,
                self.principal_grace,
                self.interest_grace,
                &self.min_principal,
                &self.max_principal,
                self.min_periods,
                self.max_periods,
                self.strategy,
                self.disbursement_charge,
                self.instalment_charge,
                self.overdue_charge,
                self.retired
            ],
        )
    }

    fn find_text() -> &'static str {
        "SELECT number, name, method, rate, frequency, every, principal_grace, interest_grace, min_principal, \
         max_principal, min_periods, max_periods, strategy, disbursement_charge, instalment_charge, overdue_charge, \
         retired FROM products WHERE number = ?1 ORDER BY number"
    }

    fn insert_text() -> &'static str {
        "INSERT INTO products VALUES (?1, ?2, ?3, ?4, ?5, ?6, ?7, ?8, ?9, ?10, ?11, ?12, ?13, ?14, ?15, ?16, ?17)"
    }

    fn every_text() -> &'static str {
        "SELECT number, name, method, rate, frequency, every, principal_grace, interest_grace, min_principal, \
         max_principal, min_periods, max_periods, strategy, disbursement_charge, instalment_charge, overdue_charge, \
         retired FROM products ORDER BY number"
    }

    ghost kept = { kept };

    ghost asked = { asked_known 5 11 products asked };

    ghost fits = { fits };

    ghost ordered = { ordered };

    ghost once = { product_once };

    ghost keyed = { refl };

    ghost found = { λ key x. ap is_eq (one_number key x.number) };

    ghost held = { λ trees lists all. all.1.1.1.1.1.0 };

    ghost changes = { λ x lists trees all. all };

    ghost spared = { λ x lists. refl };
}

impl Changing for ProductRow {
    fn upsert_text() -> &'static str {
        "INSERT INTO products VALUES (?1, ?2, ?3, ?4, ?5, ?6, ?7, ?8, ?9, ?10, ?11, ?12, ?13, ?14, ?15, ?16, \
         ?17) ON CONFLICT (number) DO UPDATE SET name = excluded.name, method = excluded.method, \
         rate = excluded.rate, frequency = excluded.frequency, every = excluded.every, \
         principal_grace = excluded.principal_grace, interest_grace = excluded.interest_grace, \
         min_principal = excluded.min_principal, max_principal = excluded.max_principal, \
         min_periods = excluded.min_periods, max_periods = excluded.max_periods, strategy = excluded.strategy, \
         disbursement_charge = excluded.disbursement_charge, instalment_charge = excluded.instalment_charge, \
         overdue_charge = excluded.overdue_charge, retired = excluded.retired"
    }
}
