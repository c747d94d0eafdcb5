//! The writes that bring the first version to the second: tables of instalments and of shares are made beside its own.

ghost use Rattle.std.specs.Prelude.{◌≡◌, IsTrue, OnOk};
ghost use Rattle.sqlite.specs.State.{HasCleanDisk, KeepsCommit, Survives};
ghost use Rattle.sqlite.specs.Held.{state};
ghost use Rattle.mf_store_sql.specs.Writes.{Serves, Steps};
ghost use Rattle.mf_store_schema.specs.Upgrade.{KeptLists, schema_kept, HoldsKept, FitsUpgrade, after_upgrade};

use crate::writes::StoreWrite;
use crate::{instalments, shares};
use mf_store_sql::{Write, make};
use sqlite::{Alter, Error, Transaction};

/// What the commit is made of that brings the first version to the second.
#[derive(Drop)]
pub enum UpgradeWrite {
    /// The tables of instalments and of shares are made.
    MakeAccountTables,
    /// A row is put, once these tables are there.
    Put(StoreWrite),
}

fn make_account_tables<S: Alter>(tx: &mut Transaction<'_, S>) -> Result<(), Error>
    ensures same_reference { tx.new.conn.ghost_name ≡ tx.old.conn.ghost_name }
    ensures ok { HasCleanDisk (state S.Store tx.new.conn.now) → IsTrue (state S.Store tx.old.conn.now).in_transaction
        → OnOk result (Steps (Serves schema_kept HoldsKept) (FitsUpgrade UpgradeWrite.MakeAccountTables)
        (after_upgrade UpgradeWrite.MakeAccountTables) (state S.Store tx.old.conn.now)
        (state S.Store tx.new.conn.now)) }
    ensures kept { HasCleanDisk (state S.Store tx.new.conn.now) → KeepsCommit (state S.Store tx.old.conn.now)
        (state S.Store tx.new.conn.now) }
    ensures survives { Survives (state S.Store tx.old.conn.now) (state S.Store tx.new.conn.now) (λ _. ⊥) }
{
    make(tx, &[instalments::CREATE_TEXT, shares::CREATE_TEXT])
}

impl Write for UpgradeWrite {
    ghost Lists = { KeptLists };

    ghost schema = { schema_kept };

    ghost Holds = { HoldsKept };

    ghost Fits = { FitsUpgrade };

    ghost after = { after_upgrade };

    fn write<S: Alter>(&self, tx: &mut Transaction<'_, S>) -> Result<(), Error> {
        match self {
            UpgradeWrite::MakeAccountTables => make_account_tables(tx),
            UpgradeWrite::Put(write) => write.write(tx),
        }
    }
}
