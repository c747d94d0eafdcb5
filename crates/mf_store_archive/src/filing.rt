//! The archive's table is made, with the row of where it begins, and rows are put at its end, as parts of one commit.

ghost use Rattle.std.specs.Prelude.{◌≡◌, IsTrue, OnOk, IfOk};
ghost use Rattle.sqlite.specs.State.{HasCleanDisk, KeepsCommit, Survives};
ghost use Rattle.sqlite.specs.Held.{state};
ghost use Rattle.mf_store_sql.specs.Numbered.{create_numbered, append_text};
ghost use Rattle.mf_store_sql.specs.Writes.{Serves, Steps};
ghost use Rattle.mf_store_schema.specs.Tables.{journal};
ghost use Rattle.mf_store_journal.specs.Rows.{filed_kept};
ghost use Rattle.mf_store_archive.specs.Filing.{filing_schema, HoldsFiled, FitsFiling, after_filing};
ghost use Rattle.mf_store_archive.specs.Appending.{MakesArchive, AppendsRow};
ghost use Rattle.mf_store_archive.specs.declared.filing.Filing.TheVariants.{Begin, Put};

use mf_journal::{Head, KeptRow};
use mf_store_journal::beginning_row;
use mf_store_sql::Write;
use mf_store_sql::numbered::{append, make_numbered};
use sqlite::{Alter, Error, Transaction, params};

/// What a commit of an archive is made of.
#[derive(Clone, Copy)]
pub enum Filing<'a> {
    /// The table is made, with the row of where the archive begins.
    Begin(Head),
    /// A row more at the end.
    Put(KeptRow<'a>),
}

fn create_text() -> &'static str
    ensures { result.now ≡ create_numbered journal }
{
    "CREATE TABLE journal (number INTEGER PRIMARY KEY, day INTEGER NOT NULL, office INTEGER NOT NULL, \
     staff INTEGER NOT NULL, told BLOB NOT NULL, method BLOB NOT NULL, path BLOB NOT NULL, body BLOB NOT NULL, \
     named_office INTEGER NOT NULL, named_loan INTEGER NOT NULL, chain BLOB NOT NULL) STRICT"
}

fn append_text() -> &'static str
    ensures { result.now ≡ append_text journal }
{
    "INSERT INTO journal SELECT ?1, ?2, ?3, ?4, ?5, ?6, ?7, ?8, ?9, ?10, ?11 \
     WHERE NOT EXISTS (SELECT 1 FROM journal WHERE number >= ?1)"
}

/// The number in 32 bits, as the table keeps it.
pub(crate) fn narrow(number: u64) -> Result<u32, Error>
    ensures { IfOk result (λ narrow. narrow ≡ number) }
{
    match u32::try_from(number) {
        Ok(narrow) => Ok(narrow),
        Err(_) => Err(Error::IntegralValueOutOfRange(0)),
    }
}

/// Makes the table where there is none, as a part of the transaction.
fn make_archive<S: Alter>(tx: &mut Transaction<'_, S>) -> Result<(), Error>
    ensures same_reference { tx.new.conn.ghost_name ≡ tx.old.conn.ghost_name }
    ensures ok { HasCleanDisk (state S.Store tx.new.conn.now) → IsTrue (state S.Store tx.old.conn.now).in_transaction
        → OnOk result (MakesArchive (state S.Store tx.old.conn.now) (state S.Store tx.new.conn.now)) }
    ensures kept { HasCleanDisk (state S.Store tx.new.conn.now) → KeepsCommit (state S.Store tx.old.conn.now)
        (state S.Store tx.new.conn.now) }
    ensures survives { Survives (state S.Store tx.old.conn.now) (state S.Store tx.new.conn.now) (λ _. ⊥) }
{
    make_numbered(tx, create_text())
}

/// Puts a row at the end, as a part of the transaction.
fn append_row<S: Alter>(tx: &mut Transaction<'_, S>, kept: KeptRow<'_>) -> Result<(), Error>
    ensures same_reference { tx.new.conn.ghost_name ≡ tx.old.conn.ghost_name }
    ensures ok { HasCleanDisk (state S.Store tx.new.conn.now) → IsTrue (state S.Store tx.old.conn.now).in_transaction
        → OnOk result (AppendsRow (filed_kept kept.entry) (state S.Store tx.old.conn.now)
        (state S.Store tx.new.conn.now)) }
    ensures kept { HasCleanDisk (state S.Store tx.new.conn.now) → KeepsCommit (state S.Store tx.old.conn.now)
        (state S.Store tx.new.conn.now) }
    ensures survives { Survives (state S.Store tx.old.conn.now) (state S.Store tx.new.conn.now) (λ _. ⊥) }
{
    let number = narrow(kept.number)?;
    let day = narrow(kept.row.day)?;
    let office = narrow(kept.row.office)?;
    let staff = narrow(kept.row.staff)?;
    let named_office = narrow(kept.row.named_office)?;
    let named_loan = narrow(kept.row.named_loan)?;
    append(
        tx,
        append_text(),
        params![
            number,
            day,
            office,
            staff,
            kept.row.told,
            kept.row.method,
            kept.row.path,
            kept.row.body,
            named_office,
            named_loan,
            kept.chain.as_slice()
        ],
    )
}

fn begin<S: Alter>(tx: &mut Transaction<'_, S>, head: Head) -> Result<(), Error>
    ensures same_reference { tx.new.conn.ghost_name ≡ tx.old.conn.ghost_name }
    ensures ok { HasCleanDisk (state S.Store tx.new.conn.now) → IsTrue (state S.Store tx.old.conn.now).in_transaction
        → OnOk result (Steps (Serves filing_schema HoldsFiled) (FitsFiling (Begin head)) (after_filing (Begin head))
        (state S.Store tx.old.conn.now) (state S.Store tx.new.conn.now)) }
    ensures kept { HasCleanDisk (state S.Store tx.new.conn.now) → KeepsCommit (state S.Store tx.old.conn.now)
        (state S.Store tx.new.conn.now) }
    ensures survives { Survives (state S.Store tx.old.conn.now) (state S.Store tx.new.conn.now) (λ _. ⊥) }
{
    make_archive(tx)?;
    append_row(tx, beginning_row(head))
}

fn put<S: Alter>(tx: &mut Transaction<'_, S>, kept: KeptRow<'_>) -> Result<(), Error>
    ensures same_reference { tx.new.conn.ghost_name ≡ tx.old.conn.ghost_name }
    ensures ok { HasCleanDisk (state S.Store tx.new.conn.now) → IsTrue (state S.Store tx.old.conn.now).in_transaction
        → OnOk result (Steps (Serves filing_schema HoldsFiled) (FitsFiling (Put kept.entry))
        (after_filing (Put kept.entry)) (state S.Store tx.old.conn.now) (state S.Store tx.new.conn.now)) }
    ensures kept { HasCleanDisk (state S.Store tx.new.conn.now) → KeepsCommit (state S.Store tx.old.conn.now)
        (state S.Store tx.new.conn.now) }
    ensures survives { Survives (state S.Store tx.old.conn.now) (state S.Store tx.new.conn.now) (λ _. ⊥) }
{
    append_row(tx, kept)
}

impl Write for Filing<'_> {
    ghost use Rattle.std.specs.Prelude.{List, Option};
    ghost use Rattle.mf_store_sql.specs.Numbered.{Filed};

    ghost Lists = { Option (List Filed) };

    ghost schema = { filing_schema };

    ghost Holds = { HoldsFiled };

    ghost Fits = { FitsFiling };

    ghost after = { after_filing };

    fn write<S: Alter>(&self, tx: &mut Transaction<'_, S>) -> Result<(), Error> {
        match self {
            Filing::Begin(head) => begin(tx, *head),
            Filing::Put(kept) => put(tx, *kept),
        }
    }
}
