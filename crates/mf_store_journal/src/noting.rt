//! The writes of a commit, and with them what becomes of the journal, as parts of one transaction.

ghost use Rattle.std.specs.Prelude.{◌≡◌, IsTrue, OnOk};
ghost use Rattle.sqlite.specs.State.{HasCleanDisk, KeepsCommit, Survives};
ghost use Rattle.sqlite.specs.Held.{state};
ghost use Rattle.mf_store_sql.specs.Writes.{Serves, Steps};
ghost use Rattle.mf_store_schema.specs.Writes.{schema_of, Holds};
ghost use Rattle.mf_store_journal.specs.Noting.{FitsNoted, after_noted_write};
ghost use Rattle.mf_store_journal.specs.declared.noting.NotedWrite.TheVariants.{Begin, AddLine};

use crate::adding::{beginning_row, make_journal, put_line};
use mf_journal::{Head, KeptRow};
use mf_store_schema::StoreWrite;
use mf_store_sql::Write;
use sqlite::{Alter, Error, Transaction};

/// What a commit is made of where a journal is kept, or begins.
#[derive(Clone, Copy)]
pub enum NotedWrite<'a> {
    /// A write of the other tables.
    Put(&'a StoreWrite),
    /// The journal's table is made, with the row of where it begins.
    Begin(Head),
    /// A line more of the journal.
    AddLine(KeptRow<'a>),
}

fn begin<S: Alter>(tx: &mut Transaction<'_, S>, head: Head) -> Result<(), Error>
    ensures same_reference { tx.new.conn.ghost_name ≡ tx.old.conn.ghost_name }
    ensures ok { HasCleanDisk (state S.Store tx.new.conn.now) → IsTrue (state S.Store tx.old.conn.now).in_transaction
        → OnOk result (Steps (Serves schema_of Holds) (FitsNoted (Begin head)) (after_noted_write (Begin head))
        (state S.Store tx.old.conn.now) (state S.Store tx.new.conn.now)) }
    ensures kept { HasCleanDisk (state S.Store tx.new.conn.now) → KeepsCommit (state S.Store tx.old.conn.now)
        (state S.Store tx.new.conn.now) }
    ensures survives { Survives (state S.Store tx.old.conn.now) (state S.Store tx.new.conn.now) (λ _. ⊥) }
{
    make_journal(tx)?;
    put_line(tx, beginning_row(head))
}

fn add<S: Alter>(tx: &mut Transaction<'_, S>, kept: KeptRow<'_>) -> Result<(), Error>
    ensures same_reference { tx.new.conn.ghost_name ≡ tx.old.conn.ghost_name }
    ensures ok { HasCleanDisk (state S.Store tx.new.conn.now) → IsTrue (state S.Store tx.old.conn.now).in_transaction
        → OnOk result (Steps (Serves schema_of Holds) (FitsNoted (AddLine kept.entry))
        (after_noted_write (AddLine kept.entry)) (state S.Store tx.old.conn.now) (state S.Store tx.new.conn.now)) }
    ensures kept { HasCleanDisk (state S.Store tx.new.conn.now) → KeepsCommit (state S.Store tx.old.conn.now)
        (state S.Store tx.new.conn.now) }
    ensures survives { Survives (state S.Store tx.old.conn.now) (state S.Store tx.new.conn.now) (λ _. ⊥) }
{
    put_line(tx, kept)
}

impl Write for NotedWrite<'_> {
    ghost use Rattle.std.specs.Prelude.{Option};
    ghost use Rattle.mf_store_schema.specs.Rows.{Lists};

    ghost Lists = { Option Lists };

    ghost schema = { schema_of };

    ghost Holds = { Holds };

    ghost Fits = { FitsNoted };

    ghost after = { after_noted_write };

    fn write<S: Alter>(&self, tx: &mut Transaction<'_, S>) -> Result<(), Error> {
        match self {
            NotedWrite::Put(write) => write.write(tx),
            NotedWrite::Begin(head) => begin(tx, *head),
            NotedWrite::AddLine(kept) => add(tx, *kept),
        }
    }
}
