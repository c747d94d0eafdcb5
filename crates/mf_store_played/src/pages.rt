//! The lines of a journal's table, played over a store, a page of rows at a time.

ghost use Rattle.std.specs.Prelude.{◌≡◌, ◌+◌, List, map, false, IsTrue, OnOk, IfOk, IfErr};
ghost use Rattle.mf_base.specs.declared.fault.Fault.TheVariants.{F20};
ghost use Rattle.sqlite.specs.Held.{state};
ghost use Rattle.sqlite.specs.State.{HasCleanDisk};
ghost use Rattle.mf_store_schema.specs.Schemas.{IsUnchangedUnder};
ghost use Rattle.mf_journal.specs.declared.following.Head.{Head};
ghost use Rattle.mf_model.specs.Institution.{JournalLine};
ghost use Rattle.mf_play.specs.Playing.{PlaysLines};
ghost use Rattle.mf_store_sql.specs.Numbered.{shown_filed};
ghost use Rattle.mf_store_journal.specs.Reading.{IsThird};
ghost use Rattle.mf_store_journal.specs.Rows.{filed_after};
ghost use Rattle.mf_store_played.specs.Played.{PlaysTable};

use mf_base::Fault;
use mf_model::InstitutionStore;
use mf_play::{Stop, play_lines};
use mf_store_journal::{lines_told, number_after, rows_after};
use mf_store_told::number_at;
use mf_wire_requests::Routes;
use sqlite::{Alter, Connection, Row};
use std::alloc::Global;

/// Plays the lines that have these rows, one after the other, until one doesn't play.
pub(crate) fn play_page<T: InstitutionStore>(
    alloc: Global,
    routes: &Routes,
    store: &mut T,
    rows: &[Row],
) -> Result<Result<(), (usize, Stop)>, Fault>
    ensures premise { T.clean store.new → T.clean store.old }
    ensures plays { (h : Head) (lines : List JournalLine) → rows.now ≡ map shown_filed (filed_after h lines)
        → PlaysLines T.InstitutionStore lines store.old store.new result }
    ensures gives_up { IfErr result (λ fault. fault ≡ F20) }
{
    match lines_told(alloc, rows) {
        Ok(told) => play_lines(alloc, routes, store, &told),
        Err(fault) => Err(fault),
    }
}

/// Plays the lines that the table keeps of a journal that begins after a number, until one doesn't play. It says that
/// line's number, and why it doesn't play. The error is F20.
pub(crate) fn play_pages<S: Alter, T: InstitutionStore>(
    alloc: Global,
    routes: &Routes,
    connection: &mut Connection<S>,
    store: &mut T,
    after: u32,
) -> Result<Result<(), (u64, Stop)>, Fault>
    requires alone { connection.old.in_transaction ≡ false }
    ensures kept { IsUnchangedUnder IsThird (state S.Store connection.old) (state S.Store connection.new) }
    ensures gives_up { IfErr result (λ fault. fault ≡ F20) }
    ensures open { HasCleanDisk (state S.Store connection.new)
        → OnOk result (IsTrue (state S.Store connection.new).is_open) }
    ensures plays { PlaysTable T.InstitutionStore after (state S.Store connection.old) (state S.Store connection.new)
        store.old store.new result }
    ensures mode { connection.new.in_transaction ≡ false }
{
    let mut number = after;
    'pages: for _ in 0..u64::MAX {
        let rows = rows_after(connection, number)?;
        if rows.is_empty() {
            return Ok(Ok(()));
        }
        match play_page(alloc, routes, store, &rows) {
            Ok(Ok(())) => {}
            Ok(Err((place, why))) => {
                let told = number_at(number, place)?;
                return Ok(Err((told, why)));
            }
            Err(fault) => return Err(fault),
        }
        number = number_after(number, rows.len())?;
    }
    Err(Fault::F20)
}
