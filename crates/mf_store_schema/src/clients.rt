//! The table clients: its rows, and the texts that read and write them.

ghost use Rattle.std.specs.Ordering.{is_eq};
ghost use Rattle.mf_store_schema.specs.Tables.{clients};
ghost use Rattle.mf_store_schema.specs.ClientsTexts.{kept, fits, ordered, lists_by_1, asked};
ghost use Rattle.mf_store_schema.specs.Keys.{one_number, two_numbers};
ghost use Rattle.mf_store_schema.specs.Once.{client_once};
ghost use Rattle.mf_store_schema.specs.Rows.{by_client, client_row, put_client, is_row_of_client};
ghost use Rattle.mf_store_schema.specs.Rows.{is_client_of};
ghost use Rattle.mf_store_schema.specs.Schemas.{IsKnown};
ghost use Rattle.mf_store_schema.specs.Whole.{asked_known};

use crate::table::{Listed, Table, has_columns, run};
use crate::text::Text;
use crate::words::{ColumnWords, IndexWords, TableWords};
use sqlite::{Alter, Error, Row, Transaction, params};

/// Makes the table.
pub(crate) const CREATE_TEXT: &str =
    "CREATE TABLE clients (office INTEGER NOT NULL, number INTEGER NOT NULL, name TEXT NOT NULL, \
     PRIMARY KEY (office, number)) STRICT";

/// The table in words that a schema found is compared with.
pub(crate) const WORDS: TableWords = TableWords {
    tree: 7,
    name: "clients",
    columns: &[
        ColumnWords::Int("office"),
        ColumnWords::Int("number"),
        ColumnWords::Text("name"),
    ],
    rowid: None,
    primary: &[1, 2],
    uniques: &[&[1, 2]],
};

/// The index of its key.
pub(crate) const INDEX: IndexWords = IndexWords {
    table: 7,
    tree: 8,
    name: "sqlite_autoindex_clients_1",
    key: &[1, 2],
};

/// A row of the table clients.
#[derive(Drop)]
pub struct ClientRow {
    pub office: u32,
    pub number: u32,
    pub name: Text,
}

#[tactic(auto, using(crate::proofs::RowLemmas::row_is, crate::proofs::CallLemmas::ran_with))]
impl Table for ClientRow {
    ghost use Rattle.std.proofs.Common.{ap, refl};

    type Key = (u32, u32);

    ghost columns = { clients };

    ghost place = { 3 };

    ghost tree = { 7 };

    ghost IsUnder = { IsKnown };

    ghost stored = { client_row };

    ghost by = { by_client };

    ghost list = { λ lists. lists.clients };

    ghost put = { put_client };

    ghost is_at = { λ key. is_row_of_client key.0 key.1 };

    fn read(row: &Row) -> Result<ClientRow, Error> {
        has_columns(row, 3)?;
        Ok(ClientRow {
            office: row.get(0)?,
            number: row.get(1)?,
            name: row.get(2)?,
        })
    }

    #[tactic(auto, using(crate::proofs::CallLemmas::ran_with, crate::proofs::CallLemmas::failed_with))]
    fn execute<S: Alter>(&self, tx: &mut Transaction<'_, S>, sql: &str) -> Result<(), Error> {
        run(tx, sql, params![self.office, self.number, &self.name])
    }

    fn find_text() -> &'static str {
        "SELECT office, number, name FROM clients WHERE office = ?1 AND number = ?2 ORDER BY office, number"
    }

    fn insert_text() -> &'static str {
        "INSERT INTO clients VALUES (?1, ?2, ?3)"
    }

    fn every_text() -> &'static str {
        "SELECT office, number, name FROM clients ORDER BY office, number"
    }

    ghost kept = { kept };

    ghost asked = { asked_known 3 7 clients asked };

    ghost fits = { fits };

    ghost ordered = { ordered };

    ghost once = { client_once };

    ghost keyed = { refl };

    ghost found = { λ key x. ap is_eq (two_numbers key.0 key.1 x.office x.number) };

    ghost held = { λ trees lists all. all.1.1.1.0 };

    ghost changes = { λ x lists trees all. all };

    ghost spared = { λ x lists. refl };
}

impl Listed for ClientRow {
    ghost use Rattle.std.proofs.Common.{ap, refl};

    type Part = u32;

    ghost is_in = { is_client_of };

    fn list_text() -> &'static str {
        "SELECT office, number, name FROM clients WHERE office = ?1 ORDER BY office, number"
    }

    ghost lists = { lists_by_1 };

    ghost partly = { refl };

    ghost listed = { λ part x. ap is_eq (one_number part x.office) };
}
