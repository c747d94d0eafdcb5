//! The first rows leave the journal's table, and the row of where it begins then stands before those that stay.

ghost use Rattle.std.specs.Prelude.{◌≡◌, IsTrue, OnOk};
ghost use Rattle.sqlite.specs.State.{HasCleanDisk, KeepsCommit, Survives};
ghost use Rattle.sqlite.specs.Held.{state};
ghost use Rattle.mf_store_archive.specs.Removing.{RemovesUpTo, PutsFirst};
ghost use Rattle.mf_store_archive.specs.Texts.{remove_text, begin_text};

use crate::filing::narrow;
use mf_journal::Head;
use mf_store_sql::run;
use sqlite::{Alter, Error, Transaction, params};

fn remove_text() -> &'static str
    ensures { result.now ≡ remove_text }
{
    "DELETE FROM journal WHERE number <= ?1"
}

fn begin_text() -> &'static str
    ensures { result.now ≡ begin_text }
{
    "INSERT INTO journal VALUES (?1, ?2, 0, 0, x'', x'', x'', x'', 0, 0, ?3)"
}

/// Takes out the rows up to and with a number, as a part of the transaction.
pub(crate) fn remove_up_to<S: Alter>(tx: &mut Transaction<'_, S>, number: u32) -> Result<(), Error>
    ensures same_reference { tx.new.conn.ghost_name ≡ tx.old.conn.ghost_name }
    ensures ok { HasCleanDisk (state S.Store tx.new.conn.now) → IsTrue (state S.Store tx.old.conn.now).in_transaction
        → OnOk result (RemovesUpTo number (state S.Store tx.old.conn.now) (state S.Store tx.new.conn.now)) }
    ensures kept { HasCleanDisk (state S.Store tx.new.conn.now) → KeepsCommit (state S.Store tx.old.conn.now)
        (state S.Store tx.new.conn.now) }
    ensures survives { Survives (state S.Store tx.old.conn.now) (state S.Store tx.new.conn.now) (λ _. ⊥) }
{
    run(tx, remove_text(), params![number])
}

/// Puts the row of where a journal begins, as a part of the transaction. It fails where one of its numbers has no room
/// in 32 bits.
pub(crate) fn put_first<S: Alter>(tx: &mut Transaction<'_, S>, head: Head) -> Result<(), Error>
    ensures same_reference { tx.new.conn.ghost_name ≡ tx.old.conn.ghost_name }
    ensures ok { HasCleanDisk (state S.Store tx.new.conn.now) → IsTrue (state S.Store tx.old.conn.now).in_transaction
        → OnOk result (PutsFirst head (state S.Store tx.old.conn.now) (state S.Store tx.new.conn.now)) }
    ensures kept { HasCleanDisk (state S.Store tx.new.conn.now) → KeepsCommit (state S.Store tx.old.conn.now)
        (state S.Store tx.new.conn.now) }
    ensures survives { Survives (state S.Store tx.old.conn.now) (state S.Store tx.new.conn.now) (λ _. ⊥) }
{
    let number = narrow(head.number)?;
    let day = narrow(head.day)?;
    run(
        tx,
        begin_text(),
        params![number, day, head.chain.as_slice()],
    )
}
