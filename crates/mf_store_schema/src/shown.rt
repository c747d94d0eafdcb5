//! The rows that a text shows, read one at a time: no more of them are held than the kit reads ahead.

ghost use Rattle.std.specs.Prelude.{◌≡◌, ℕ, List, [], false, IsTrue, OnOk, IfOk, IfErr};
ghost use Rattle.mf_base.specs.declared.fault.Fault.TheVariants.{F20};
ghost use Rattle.sqlite.specs.Given.{HasGiven, IsPlain};
ghost use Rattle.sqlite.specs.Held.{state};
ghost use Rattle.sqlite.specs.Listing.{understood};
ghost use Rattle.sqlite.specs.Order.{Row};
ghost use Rattle.sqlite.specs.State.{HasCleanDisk, Survives};
ghost use Rattle.mf_store_sql.specs.Queries.{Answers};
ghost use Rattle.mf_store_schema.specs.Read.{AreRead};

use crate::rows::with_row;
use crate::table::Table;
use mf_base::Fault;
use sqlite::{Alter, Connection, Rows};
use std::alloc::Global;

/// The records of the rows that are to come, and none where one of them is no record's.
fn read_rows<T: Table + Drop, S: Alter>(
    alloc: Global,
    rows: &mut Rows<'_, S>,
) -> Result<Option<Vec<T>>, Fault>
    ensures same_reference { rows.new.conn.ghost_name ≡ rows.old.conn.ghost_name }
    ensures read { HasCleanDisk (state S.Store rows.new.conn.now) → IfOk result (λ x. (shown : List Row)
        × AreRead T.stored (T.columns).columns x shown × ((sql : List ℕ) (params : Row)
        → HasGiven S.Store sql params rows.old.conn.now []
        → Answers sql params (state S.Store rows.old.conn.now).now shown)) }
    ensures gives_up { IfErr result (λ fault. fault ≡ F20) }
    ensures still_open { HasCleanDisk (state S.Store rows.new.conn.now)
        → OnOk result (IsTrue (state S.Store rows.new.conn.now).is_open) }
    ensures was_open { HasCleanDisk (state S.Store rows.new.conn.now)
        → IsTrue (state S.Store rows.new.conn.now).is_open → IsTrue (state S.Store rows.old.conn.now).is_open }
    ensures same { HasCleanDisk (state S.Store rows.new.conn.now) → IsTrue (state S.Store rows.new.conn.now).is_open
        → (state S.Store rows.old.conn.now).now ≡ (state S.Store rows.old.conn.now).committed
        → (state S.Store rows.new.conn.now).now ≡ (state S.Store rows.old.conn.now).now }
    ensures mode { rows.old.conn.now.in_transaction ≡ false → rows.new.conn.now.in_transaction ≡ false }
    ensures survives { Survives (state S.Store rows.old.conn.now) (state S.Store rows.new.conn.now) (λ _. ⊥) }
{
    let mut records = Some(Vec::new(alloc));
    'rows: for _ in 0..u64::MAX {
        let Ok(()) = rows.advance() else {
            return Err(Fault::F20);
        };
        let Some(row) = rows.get() else {
            return Ok(records);
        };
        records = with_row(records, row)?;
    }
    // No table has this many rows.
    Err(Fault::F20)
}

/// The records of the rows that a text shows, and none where one of them is no record's. A plain text, one with no
/// RETURNING, changes nothing, also where it is refused.
pub(crate) fn read_shown<T: Table + Drop, S: Alter>(
    alloc: Global,
    connection: &mut Connection<S>,
    sql: &str,
) -> Result<Option<Vec<T>>, Fault>
    requires alone { connection.old.in_transaction ≡ false }
    ensures read { HasCleanDisk (state S.Store connection.new) → IfOk result (λ x. (shown : List Row)
        × AreRead T.stored (T.columns).columns x shown × Answers sql.now [] (state S.Store connection.old).now shown) }
    ensures gives_up { IfErr result (λ fault. fault ≡ F20) }
    ensures still_open { HasCleanDisk (state S.Store connection.new)
        → OnOk result (IsTrue (state S.Store connection.new).is_open) }
    ensures was_open { HasCleanDisk (state S.Store connection.new) → IsTrue (state S.Store connection.new).is_open
        → IsTrue (state S.Store connection.old).is_open }
    ensures same { HasCleanDisk (state S.Store connection.new) → IsTrue (state S.Store connection.new).is_open
        → IsPlain (understood (state S.Store connection.old).now.schema sql.now)
        → (state S.Store connection.new).now ≡ (state S.Store connection.old).now }
    ensures mode { connection.new.in_transaction ≡ false }
    ensures crash { Survives (state S.Store connection.old) (state S.Store connection.new)
        (λ _. IsTrue (state S.Store connection.old).is_open
        × ¬ IsPlain (understood (state S.Store connection.old).now.schema sql.now)) }
{
    // With nothing to commit a stop leaves just the tables as they are; the call brings that into the proof.
    let _settled = connection.is_autocommit();
    // An empty statement is refused where the connection is shut, so from here on it is open, which the clauses rest
    // on; a statement of the text itself would copy it.
    let Ok(_) = connection.prepare("") else {
        return Err(Fault::F20);
    };
    match connection.query(sql, &[]) {
        Ok(mut rows) => read_rows(alloc, &mut rows),
        Err(_error) => Err(Fault::F20),
    }
}
