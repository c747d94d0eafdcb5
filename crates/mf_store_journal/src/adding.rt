//! The table is made, and lines are put at its end.

ghost use Rattle.std.specs.Prelude.{◌≡◌, ◌⊎◌, IsTrue, OnOk, OnErr, IfOk, IfErr};
ghost use Rattle.mf_base.specs.declared.fault.Fault.TheVariants.{F20};
ghost use Rattle.sqlite.specs.State.{HasCleanDisk, KeepsCommit, Survives};
ghost use Rattle.sqlite.specs.Held.{state};
ghost use Rattle.mf_store_sql.specs.Numbered.{create_numbered, append_text};
ghost use Rattle.mf_store_schema.specs.Tables.{journal};
ghost use Rattle.mf_store_journal.specs.Rows.{filed_kept, filed_beginning};
ghost use Rattle.mf_store_journal.specs.Adding.{MakesJournal, PutsLine, LeavesJournal, AddsLine};

use crate::numbers::numbers_of;
use mf_base::Fault;
use mf_journal::{Head, JournalRow, KeptRow};
use mf_store_sql::numbered::{append, make_numbered};
use sqlite::{Alter, Error, Transaction, params};

fn create_text() -> &'static str
    ensures { result.now ≡ create_numbered journal }
{
    "CREATE TABLE journal (number INTEGER PRIMARY KEY, day INTEGER NOT NULL, office INTEGER NOT NULL, \
     staff INTEGER NOT NULL, told BLOB NOT NULL, method BLOB NOT NULL, path BLOB NOT NULL, body BLOB NOT NULL, \
     named_office INTEGER NOT NULL, named_loan INTEGER NOT NULL, chain BLOB NOT NULL) STRICT"
}

fn put_text() -> &'static str
    ensures { result.now ≡ append_text journal }
{
    "INSERT INTO journal SELECT ?1, ?2, ?3, ?4, ?5, ?6, ?7, ?8, ?9, ?10, ?11 \
     WHERE NOT EXISTS (SELECT 1 FROM journal WHERE number >= ?1)"
}

/// Makes the table beside today's, as a part of the transaction. It has no rows.
pub fn make_journal<S: Alter>(tx: &mut Transaction<'_, S>) -> Result<(), Error>
    ensures same_reference { tx.new.conn.ghost_name ≡ tx.old.conn.ghost_name }
    ensures ok { HasCleanDisk (state S.Store tx.new.conn.now) → IsTrue (state S.Store tx.old.conn.now).in_transaction
        → OnOk result (MakesJournal (state S.Store tx.old.conn.now) (state S.Store tx.new.conn.now)) }
    ensures kept { HasCleanDisk (state S.Store tx.new.conn.now) → KeepsCommit (state S.Store tx.old.conn.now)
        (state S.Store tx.new.conn.now) }
    ensures survives { Survives (state S.Store tx.old.conn.now) (state S.Store tx.new.conn.now) (λ _. ⊥) }
{
    make_numbered(tx, create_text())
}

/// The first row of a journal that begins here: it has the day and nothing else.
pub fn beginning_row<'a>(head: Head) -> KeptRow<'a>
    ensures { filed_kept result ≡ filed_beginning head }
{
    let chain = head.chain;
    KeptRow {
        number: head.number,
        row: JournalRow {
            day: head.day,
            office: 0,
            staff: 0,
            told: b"",
            method: b"",
            path: b"",
            body: b"",
            named_office: 0,
            named_loan: 0,
        },
        chain,
    }
}

/// Puts a row at the end of the table, as a part of the transaction. It fails where a row has its number or one above
/// it, and where one of its numbers has no room in 32 bits.
pub fn put_line<S: Alter>(tx: &mut Transaction<'_, S>, kept: KeptRow<'_>) -> Result<(), Error>
    ensures same_reference { tx.new.conn.ghost_name ≡ tx.old.conn.ghost_name }
    ensures ok { HasCleanDisk (state S.Store tx.new.conn.now) → IsTrue (state S.Store tx.old.conn.now).in_transaction
        → OnOk result (PutsLine (filed_kept kept.entry) (state S.Store tx.old.conn.now)
        (state S.Store tx.new.conn.now)) }
    ensures err { HasCleanDisk (state S.Store tx.new.conn.now) → IsTrue (state S.Store tx.old.conn.now).in_transaction
        → OnErr result (LeavesJournal (state S.Store tx.old.conn.now) (state S.Store tx.new.conn.now)) }
    ensures kept { HasCleanDisk (state S.Store tx.new.conn.now) → KeepsCommit (state S.Store tx.old.conn.now)
        (state S.Store tx.new.conn.now) }
    ensures survives { Survives (state S.Store tx.old.conn.now) (state S.Store tx.new.conn.now) (λ _. ⊥) }
{
    let Some(n) = numbers_of(kept) else {
        return Err(Error::IntegralValueOutOfRange(0));
    };
    append(
        tx,
        put_text(),
        params![
            n.number,
            n.day,
            n.office,
            n.staff,
            kept.row.told,
            kept.row.method,
            kept.row.path,
            kept.row.body,
            n.named_office,
            n.named_loan,
            kept.chain.as_slice()
        ],
    )
}

/// Adds a line to a journal that stands at a head, as a part of the transaction, and answers where it stands then. F20
/// where the day is earlier than that of the last line, where there is no room, or where the table can't be written.
pub fn add_line<S: Alter>(
    tx: &mut Transaction<'_, S>,
    head: Head,
    row: JournalRow<'_>,
) -> Result<Head, Fault>
    ensures same_reference { tx.new.conn.ghost_name ≡ tx.old.conn.ghost_name }
    ensures added { HasCleanDisk (state S.Store tx.new.conn.now)
        → IsTrue (state S.Store tx.old.conn.now).in_transaction
        → IfOk result (λ next. AddsLine head row.entry next (state S.Store tx.old.conn.now)
        (state S.Store tx.new.conn.now)) }
    ensures gives_up { IfErr result (λ fault. fault ≡ F20) }
    ensures err { HasCleanDisk (state S.Store tx.new.conn.now) → IsTrue (state S.Store tx.old.conn.now).in_transaction
        → OnErr result (LeavesJournal (state S.Store tx.old.conn.now) (state S.Store tx.new.conn.now)) }
    ensures kept { HasCleanDisk (state S.Store tx.new.conn.now) → KeepsCommit (state S.Store tx.old.conn.now)
        (state S.Store tx.new.conn.now) }
    ensures survives { Survives (state S.Store tx.old.conn.now) (state S.Store tx.new.conn.now) (λ _. ⊥) }
{
    let Some(next) = head.add(row) else {
        return Err(Fault::F20);
    };
    let chain = next.chain;
    let kept = KeptRow {
        number: next.number,
        row,
        chain,
    };
    match put_line(tx, kept) {
        Ok(()) => Ok(next),
        Err(_) => Err(Fault::F20),
    }
}
