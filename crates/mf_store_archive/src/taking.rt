//! The first lines of a journal leave an institution's tables, in one commit.

ghost use Rattle.std.specs.Prelude.{◌≡◌, false, IsTrue, OnOk};
ghost use Rattle.sqlite.specs.State.{HasCleanDisk, KeepsCommit, Survives};
ghost use Rattle.sqlite.specs.Held.{state};
ghost use Rattle.mf_store_sql.specs.Writes.{Serves, Steps};
ghost use Rattle.mf_store_schema.specs.Writes.{schema_of, Holds};
ghost use Rattle.mf_store_archive.specs.Removing.{FitsTaking, after_taking};
ghost use Rattle.mf_store_archive.specs.Taking.{FitsTakeOut, after_take_out, TakesOut};

use crate::filing::narrow;
use crate::removing::{put_first, remove_up_to};
use mf_base::Fault;
use mf_journal::Head;
use mf_store_journal::Journal;
use mf_store_sql::{Write, apply};
use sqlite::{Alter, Connection, Error, Transaction};

/// The lines up to a head leave the journal, which begins there then.
#[derive(Clone, Copy)]
struct TakeOut {
    begins: Head,
}

/// Takes out the rows up to the head's number, and puts that of a beginning there.
fn take_up_to<S: Alter>(tx: &mut Transaction<'_, S>, head: Head) -> Result<(), Error>
    ensures same_reference { tx.new.conn.ghost_name ≡ tx.old.conn.ghost_name }
    ensures ok { HasCleanDisk (state S.Store tx.new.conn.now) → IsTrue (state S.Store tx.old.conn.now).in_transaction
        → OnOk result (Steps (Serves schema_of Holds) FitsTaking (after_taking head) (state S.Store tx.old.conn.now)
        (state S.Store tx.new.conn.now)) }
    ensures kept { HasCleanDisk (state S.Store tx.new.conn.now) → KeepsCommit (state S.Store tx.old.conn.now)
        (state S.Store tx.new.conn.now) }
    ensures survives { Survives (state S.Store tx.old.conn.now) (state S.Store tx.new.conn.now) (λ _. ⊥) }
{
    let number = narrow(head.number)?;
    remove_up_to(tx, number)?;
    put_first(tx, head)
}

impl Write for TakeOut {
    ghost use Rattle.std.specs.Prelude.{Option};
    ghost use Rattle.mf_store_schema.specs.Rows.{Lists};

    ghost Lists = { Option Lists };

    ghost schema = { schema_of };

    ghost Holds = { Holds };

    ghost Fits = { FitsTakeOut };

    ghost after = { after_take_out };

    fn write<S: Alter>(&self, tx: &mut Transaction<'_, S>) -> Result<(), Error> {
        take_up_to(tx, self.begins)
    }
}

/// Takes the first lines of the institution's journal out of its tables, in one commit: those up to the head, where the
/// journal begins then. The result is the journal as it stands. The error is F20.
///
/// The clauses speak of a head that the journal had after some of its lines (`IsCut`).
pub fn take_out<S: Alter>(
    connection: &mut Connection<S>,
    journal: Journal,
    begins: Head,
) -> Result<Journal, Fault>
    requires alone { connection.old.in_transaction ≡ false }
    ensures takes { TakesOut S.Store journal begins connection.old connection.new result }
    ensures mode { connection.new.in_transaction ≡ false }
{
    match apply(connection, &[TakeOut { begins }]) {
        Ok(()) => Ok(Journal {
            begins,
            head: journal.head,
        }),
        Err(_) => Err(Fault::F20),
    }
}
