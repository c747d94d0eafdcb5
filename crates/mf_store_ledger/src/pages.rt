//! The lines of a journal's table, played a page of rows at a time, and their transactions written.

ghost use Rattle.std.specs.Prelude.{◌≡◌, List, map, false, IsTrue, OnOk, IfOk, IfErr};
ghost use Rattle.mf_base.specs.declared.fault.Fault.TheVariants.{F20};
ghost use Rattle.sqlite.specs.Held.{state};
ghost use Rattle.sqlite.specs.State.{HasCleanDisk};
ghost use Rattle.mf_journal.specs.declared.following.Head.{Head};
ghost use Rattle.mf_model.specs.Institution.{JournalLine};
ghost use Rattle.mf_store_schema.specs.Schemas.{IsUnchangedUnder};
ghost use Rattle.mf_store_sql.specs.Numbered.{shown_filed};
ghost use Rattle.mf_store_journal.specs.Reading.{IsThird};
ghost use Rattle.mf_store_journal.specs.Rows.{filed_after};
ghost use Rattle.mf_ledger_play.specs.Playing.{BooksLines};
ghost use Rattle.mf_store_ledger.specs.Playing.{BooksTable};

use mf_base::Fault;
use mf_ledger_play::{BooksAsked, book_lines};
use mf_model::InstitutionStore;
use mf_play::Stop;
use mf_store_journal::{lines_told, number_after, rows_after};
use mf_store_told::number_at;
use mf_wire_requests::Routes;
use sqlite::{Alter, Connection, Row};
use std::alloc::Global;

/// Plays the lines that have these rows, which so many lines come before, until one doesn't play, and writes their
/// transactions behind the text.
fn book_page<T: InstitutionStore>(
    alloc: Global,
    routes: &Routes,
    store: &mut T,
    asked: &BooksAsked,
    number: u32,
    rows: &[Row],
    text: &mut Vec<u8>,
) -> Result<Result<(), (usize, Stop)>, Fault>
    ensures books { (h : Head) (lines : List JournalLine) → rows.now ≡ map shown_filed (filed_after h lines)
        → IfOk result (BooksLines T.InstitutionStore asked.now number lines text.old.items text.new.items store.old
        store.new) }
    ensures premise { OnOk result (T.clean store.new → T.clean store.old) }
    ensures gives_up { IfErr result (λ fault. fault ≡ F20) }
{
    match lines_told(alloc, rows) {
        Ok(told) => book_lines(alloc, routes, store, asked, number, &told, text),
        Err(fault) => Err(fault),
    }
}

/// Plays the lines that the table keeps of a journal that begins with its first line, until one doesn't play, and
/// writes their transactions behind the text. It says that line's number, and why it doesn't play. The error is F20.
pub(crate) fn book_pages<S: Alter, T: InstitutionStore>(
    alloc: Global,
    routes: &Routes,
    connection: &mut Connection<S>,
    store: &mut T,
    asked: &BooksAsked,
    text: &mut Vec<u8>,
) -> Result<Result<(), (u64, Stop)>, Fault>
    requires alone { connection.old.in_transaction ≡ false }
    ensures kept { IsUnchangedUnder IsThird (state S.Store connection.old) (state S.Store connection.new) }
    ensures gives_up { IfErr result (λ fault. fault ≡ F20) }
    ensures open { HasCleanDisk (state S.Store connection.new)
        → OnOk result (IsTrue (state S.Store connection.new).is_open) }
    ensures books { BooksTable T.InstitutionStore asked.now (state S.Store connection.old)
        (state S.Store connection.new) store.old store.new text.old.items text.new.items result }
    ensures mode { connection.new.in_transaction ≡ false }
{
    let mut number: u32 = 0;
    'pages: for _ in 0..u64::MAX {
        let rows = rows_after(connection, number)?;
        if rows.is_empty() {
            return Ok(Ok(()));
        }
        match book_page(alloc, routes, store, asked, number, &rows, text) {
            Ok(Ok(())) => {}
            Ok(Err((place, why))) => {
                let told = number_at(number, place)?;
                return Ok(Err((told, why)));
            }
            Err(fault) => return Err(fault),
        }
        number = number_after(number, rows.len())?;
    }
    Err(Fault::F20)
}
