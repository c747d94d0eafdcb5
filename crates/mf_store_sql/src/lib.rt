//! Lists of rows that SQL tables keep: any list of writes in one transaction, and queries that write nothing; and a
//! database in pages of memory.
//!
//! What the rows mean is left to the crate above, which says for each of its writes what it makes of the lists.
#![tactic(auto)]

ghost use Rattle.std.specs.Prelude.{◌≡◌, ◌<◌, false, length, map, IsTrue, OnOk, OnErr, IfOk};
ghost use Rattle.sqlite.specs.Tree.{Trees};
ghost use Rattle.sqlite.specs.Schema.{Schema};
ghost use Rattle.sqlite.specs.State.{HasCleanDisk, KeepsCommit, Survives};
ghost use Rattle.sqlite.specs.Values.{bound};
ghost use Rattle.sqlite.specs.Given.{IsPlain};
ghost use Rattle.sqlite.specs.Held.{state};
ghost use Rattle.sqlite.specs.Listing.{understood};
ghost use Rattle.mf_store_sql.specs.Making.{Makes};
ghost use Rattle.mf_store_sql.specs.Queries.{Answers};
ghost use Rattle.mf_store_sql.specs.Writes.{Ran, Serves, AllFit, after_all, Steps, Turns, IsSettled, MayHold};

pub mod laws;
mod memory;
pub mod numbered;
pub mod pages;

pub use memory::MemoryFile;
use sqlite::{Alter, Connection, Error, Row, Transaction};
use sqlite_value::value::ValueRef;

/// A write to the tables, and what it makes of the lists that they keep.
pub trait Write {
    /// The lists of the tables' rows, as the crate above sees them.
    ghost Lists: { Type 0 };

    /// The schema under which the tables keep these lists.
    ghost schema: { Lists → Schema };

    /// The tables keep these lists.
    ghost Holds: { Trees → Lists → Type 0 };

    /// The lists at which the write may be made.
    ghost Fits: { Self → Lists → Type 0 };

    /// The lists once it is made.
    ghost after: { Self → Lists → Lists };

    /// Makes the write, as a part of the transaction.
    fn write<S: Alter>(&self, tx: &mut Transaction<'_, S>) -> Result<(), Error>
        ensures same_reference { tx.new.conn.ghost_name ≡ tx.old.conn.ghost_name }
        ensures ok { HasCleanDisk (state S.Store tx.new.conn.now)
            → IsTrue (state S.Store tx.old.conn.now).in_transaction
            → OnOk result (Steps (Serves schema Holds) (Fits self.now) (after self.now) (state S.Store tx.old.conn.now)
            (state S.Store tx.new.conn.now)) }
        ensures kept { HasCleanDisk (state S.Store tx.new.conn.now) → KeepsCommit (state S.Store tx.old.conn.now)
            (state S.Store tx.new.conn.now) }
        ensures survives { Survives (state S.Store tx.old.conn.now) (state S.Store tx.new.conn.now) (λ _. ⊥) };
}

/// Runs one statement in the transaction, which goes on where it is `Ok`.
pub fn run<S: Alter>(
    tx: &mut Transaction<'_, S>,
    sql: &str,
    params: &[ValueRef<'_>],
) -> Result<(), Error>
    ensures same_reference { tx.new.conn.ghost_name ≡ tx.old.conn.ghost_name }
    ensures ok { HasCleanDisk (state S.Store tx.new.conn.now) → IsTrue (state S.Store tx.old.conn.now).in_transaction
        → OnOk result (Ran sql.now (bound params.now) (state S.Store tx.old.conn.now) (state S.Store tx.new.conn.now)) }
    ensures kept { HasCleanDisk (state S.Store tx.new.conn.now) → KeepsCommit (state S.Store tx.old.conn.now)
        (state S.Store tx.new.conn.now) }
    ensures survives { Survives (state S.Store tx.old.conn.now) (state S.Store tx.new.conn.now) (λ _. ⊥) }
{
    tx.execute(sql, params)?;
    Ok(())
}

/// Makes tables, each by its text; the transaction goes on where it is `Ok`.
pub fn make<S: Alter>(tx: &mut Transaction<'_, S>, texts: &[&str]) -> Result<(), Error>
    ensures same_reference { tx.new.conn.ghost_name ≡ tx.old.conn.ghost_name }
    ensures ok { HasCleanDisk (state S.Store tx.new.conn.now) → IsTrue (state S.Store tx.old.conn.now).in_transaction
        → OnOk result (Makes (map (λ text. text.now) texts.now) (state S.Store tx.old.conn.now)
        (state S.Store tx.new.conn.now)) }
    ensures kept { HasCleanDisk (state S.Store tx.new.conn.now) → KeepsCommit (state S.Store tx.old.conn.now)
        (state S.Store tx.new.conn.now) }
    ensures survives { Survives (state S.Store tx.old.conn.now) (state S.Store tx.new.conn.now) (λ _. ⊥) }
{
    match texts {
        [] => Ok(()),
        [first, others @ ..] => {
            run(tx, first, &[])?;
            make(tx, others)
        }
    }
}

/// Makes the writes in turn, in one transaction: all of them, or none. There is at least one.
pub fn apply<S: Alter, W: Write>(connection: &mut Connection<S>, writes: &[W]) -> Result<(), Error>
    requires alone { connection.old.in_transaction ≡ false }
    requires some { 0 < length writes.now }

    ensures ok { HasCleanDisk (state S.Store connection.new) → OnOk result (Turns (Serves W.schema W.Holds)
        (AllFit W.after W.Fits writes.now) (after_all W.after writes.now) (state S.Store connection.old).now
        (state S.Store connection.new).now) }
    ensures settled { HasCleanDisk (state S.Store connection.new)
        → OnOk result (IsSettled (state S.Store connection.new)) }
    ensures err { HasCleanDisk (state S.Store connection.new) → IsTrue (state S.Store connection.new).is_open
        → OnErr result ((state S.Store connection.new).now ≡ (state S.Store connection.old).now) }
    ensures was_open { HasCleanDisk (state S.Store connection.new) → IsTrue (state S.Store connection.new).is_open
        → IsTrue (state S.Store connection.old).is_open }
    ensures mode { connection.new.in_transaction ≡ false }

    // A stop leaves the lists before or those after all writes, and never a part.
    ensures crash { Survives (state S.Store connection.old) (state S.Store connection.new)
        (MayHold (Serves W.schema W.Holds) W.Holds (AllFit W.after W.Fits writes.now) (after_all W.after writes.now)
        (state S.Store connection.old)) }
{
    // With nothing to commit a stop leaves just the tables as they are; the call brings that into the proof.
    let _settled = connection.is_autocommit();
    let mut tx = connection.transaction();
    for write in writes {
        write.write(&mut tx)?;
    }
    tx.commit()
}

/// The rows of a query. A plain text, one with no RETURNING, changes nothing, also where it is refused.
pub fn query<S: Alter>(
    connection: &mut Connection<S>,
    sql: &str,
    params: &[ValueRef<'_>],
) -> Result<Vec<Row>, Error>
    requires { connection.old.in_transaction ≡ false }

    ensures rows { HasCleanDisk (state S.Store connection.new) → IfOk result (λ rows. Answers sql.now (bound params.now)
        (state S.Store connection.old).now rows.items) }
    ensures ok_open { HasCleanDisk (state S.Store connection.new)
        → OnOk result (IsTrue (state S.Store connection.old).is_open) }
    ensures still_open { HasCleanDisk (state S.Store connection.new)
        → OnOk result (IsTrue (state S.Store connection.new).is_open) }
    ensures same { HasCleanDisk (state S.Store connection.new) → IsTrue (state S.Store connection.new).is_open
        → IsPlain (understood (state S.Store connection.old).now.schema sql.now)
        → (state S.Store connection.new).now ≡ (state S.Store connection.old).now }
    ensures was_open { HasCleanDisk (state S.Store connection.new) → IsTrue (state S.Store connection.new).is_open
        → IsTrue (state S.Store connection.old).is_open }
    ensures mode { connection.new.in_transaction ≡ false }
    ensures crash { Survives (state S.Store connection.old) (state S.Store connection.new)
        (λ _. IsTrue (state S.Store connection.old).is_open
        × ¬ IsPlain (understood (state S.Store connection.old).now.schema sql.now)) }
{
    // As in `apply`: a stop leaves just the tables as they are.
    let _settled = connection.is_autocommit();
    // An empty statement is refused where the connection is shut, so from here on it is open, which the clauses rest
    // on; a statement of the text itself would copy it at each query.
    connection.prepare("")?;
    connection.query_all(sql, params)
}
