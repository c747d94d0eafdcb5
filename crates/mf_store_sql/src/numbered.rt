//! Tables whose rows are numbered: one more row at the end, the rows above a number, and the last row.
//!
//! The texts are those of the table (`specs/Numbered`), which the crate above has.

ghost use Rattle.std.specs.Prelude.{◌≡◌, ◌≤◌, false, length, slice_get, IsTrue, OnOk, OnErr, IfOk};
ghost use Rattle.sqlite.specs.State.{HasCleanDisk, KeepsCommit, Survives};
ghost use Rattle.sqlite.specs.Values.{bound};
ghost use Rattle.sqlite.specs.Given.{IsPlain};
ghost use Rattle.sqlite.specs.Held.{state};
ghost use Rattle.sqlite.specs.Listing.{understood};
ghost use Rattle.mf_store_sql.specs.NumberedMeanings.{MakesNumbered, AppendsLine, LeavesLines, ShowsAbove, ShowsLast};

use crate::{query, run};
use sqlite::{Alter, Connection, Error, ErrorCode, Row, Transaction, params};
use sqlite_schema::schema::Constraint;
use sqlite_value::value::ValueRef;

/// Makes the table by its text; the transaction goes on where it is `Ok`.
pub fn make_numbered<S: Alter>(tx: &mut Transaction<'_, S>, text: &str) -> Result<(), Error>
    ensures same_reference { tx.new.conn.ghost_name ≡ tx.old.conn.ghost_name }
    ensures ok { HasCleanDisk (state S.Store tx.new.conn.now) → IsTrue (state S.Store tx.old.conn.now).in_transaction
        → OnOk result (MakesNumbered text.now (state S.Store tx.old.conn.now) (state S.Store tx.new.conn.now)) }
    ensures kept { HasCleanDisk (state S.Store tx.new.conn.now) → KeepsCommit (state S.Store tx.old.conn.now)
        (state S.Store tx.new.conn.now) }
    ensures survives { Survives (state S.Store tx.old.conn.now) (state S.Store tx.new.conn.now) (λ _. ⊥) }
{
    run(tx, text, &[])
}

/// Puts a row at the end. The first parameter is its number: where a row has that or one above it, this fails, and no
/// table is changed.
pub fn append<S: Alter>(
    tx: &mut Transaction<'_, S>,
    text: &str,
    row: &[ValueRef<'_>],
) -> Result<(), Error>
    ensures same_reference { tx.new.conn.ghost_name ≡ tx.old.conn.ghost_name }
    ensures ok { HasCleanDisk (state S.Store tx.new.conn.now) → IsTrue (state S.Store tx.old.conn.now).in_transaction
        → OnOk result (AppendsLine text.now (bound row.now) (state S.Store tx.old.conn.now)
        (state S.Store tx.new.conn.now)) }
    ensures err { HasCleanDisk (state S.Store tx.new.conn.now) → IsTrue (state S.Store tx.old.conn.now).in_transaction
        → OnErr result (LeavesLines text.now (bound row.now) (state S.Store tx.old.conn.now)
        (state S.Store tx.new.conn.now)) }
    ensures kept { HasCleanDisk (state S.Store tx.new.conn.now) → KeepsCommit (state S.Store tx.old.conn.now)
        (state S.Store tx.new.conn.now) }
    ensures survives { Survives (state S.Store tx.old.conn.now) (state S.Store tx.new.conn.now) (λ _. ⊥) }
{
    let count = tx.execute(text, row)?;
    if count == 1 {
        Ok(())
    } else {
        Err(Error::SqliteFailure(ErrorCode::ConstraintViolation(Constraint::PrimaryKey)))
    }
}

/// The rows above a number, the lowest first, and no more than so many.
pub fn rows_above<S: Alter>(
    connection: &mut Connection<S>,
    text: &str,
    number: u32,
    most: u32,
) -> Result<Vec<Row>, Error>
    requires { connection.old.in_transaction ≡ false }
    ensures rows { HasCleanDisk (state S.Store connection.new) → IfOk result (λ rows. ShowsAbove text.now number most
        (state S.Store connection.old).now rows.items) }
    ensures ok_open { HasCleanDisk (state S.Store connection.new)
        → OnOk result (IsTrue (state S.Store connection.old).is_open) }
    ensures still_open { HasCleanDisk (state S.Store connection.new)
        → OnOk result (IsTrue (state S.Store connection.new).is_open) }
    ensures same { HasCleanDisk (state S.Store connection.new) → IsTrue (state S.Store connection.new).is_open
        → IsPlain (understood (state S.Store connection.old).now.schema text.now)
        → (state S.Store connection.new).now ≡ (state S.Store connection.old).now }
    ensures was_open { HasCleanDisk (state S.Store connection.new) → IsTrue (state S.Store connection.new).is_open
        → IsTrue (state S.Store connection.old).is_open }
    ensures mode { connection.new.in_transaction ≡ false }
    ensures crash { Survives (state S.Store connection.old) (state S.Store connection.new)
        (λ _. IsTrue (state S.Store connection.old).is_open
        × ¬ IsPlain (understood (state S.Store connection.old).now.schema text.now)) }
{
    query(connection, text, params![number, most])
}

/// The row, where there is no other.
fn only(mut rows: Vec<Row>) -> Option<Row>
    ensures { length rows.items ≤ 1 → result ≡ slice_get rows.items 0 }
{
    rows.pop()
}

/// The row with the highest number, if there is one.
pub fn last_row<S: Alter>(connection: &mut Connection<S>, text: &str) -> Result<Option<Row>, Error>
    requires { connection.old.in_transaction ≡ false }
    ensures row { HasCleanDisk (state S.Store connection.new) → IfOk result (ShowsLast text.now
        (state S.Store connection.old).now) }
    ensures ok_open { HasCleanDisk (state S.Store connection.new)
        → OnOk result (IsTrue (state S.Store connection.old).is_open) }
    ensures still_open { HasCleanDisk (state S.Store connection.new)
        → OnOk result (IsTrue (state S.Store connection.new).is_open) }
    ensures same { HasCleanDisk (state S.Store connection.new) → IsTrue (state S.Store connection.new).is_open
        → IsPlain (understood (state S.Store connection.old).now.schema text.now)
        → (state S.Store connection.new).now ≡ (state S.Store connection.old).now }
    ensures was_open { HasCleanDisk (state S.Store connection.new) → IsTrue (state S.Store connection.new).is_open
        → IsTrue (state S.Store connection.old).is_open }
    ensures mode { connection.new.in_transaction ≡ false }
    ensures crash { Survives (state S.Store connection.old) (state S.Store connection.new)
        (λ _. IsTrue (state S.Store connection.old).is_open
        × ¬ IsPlain (understood (state S.Store connection.old).now.schema text.now)) }
{
    let rows = query(connection, text, &[])?;
    Ok(only(rows))
}
