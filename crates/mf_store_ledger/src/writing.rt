//! The books of the journal that a table keeps.

ghost use Rattle.std.specs.Prelude.{◌≡◌, List, false, IsTrue, OnOk, IfOk, IfErr};
ghost use Rattle.mf_base.specs.declared.fault.Fault.TheVariants.{F20};
ghost use Rattle.sqlite.specs.Held.{state};
ghost use Rattle.sqlite.specs.State.{HasCleanDisk};
ghost use Rattle.mf_model.specs.Institution.{JournalLine};
ghost use Rattle.mf_store_schema.specs.Schemas.{IsUnchangedUnder};
ghost use Rattle.mf_store_journal.specs.Reading.{IsThird};
ghost use Rattle.mf_store_journal.specs.Written.{KeepsJournalFrom};
ghost use Rattle.mf_store_played.specs.Played.{IsFounding};
ghost use Rattle.mf_store_ledger.specs.Answer.{IsAnswer, IsAnswerOf};
ghost use Rattle.mf_ledger_play.specs.Told.{form_head};

use crate::answer::Books;
use crate::pages::book_pages;
use mf_base::{Day, Fault};
use mf_ledger_play::{BooksAsked, BooksForm};
use mf_store_journal::{Journal, read_journal};
use mf_store_played::{found_in_memory, founding_day};
use mf_wire_requests::Routes;
use sqlite::{Alter, Connection};
use std::alloc::Global;

/// What stands before the first transaction. The error is F20.
pub(crate) fn begun(alloc: Global, form: BooksForm) -> Result<Vec<u8>, Fault>
    ensures text { IfOk result (λ text. text.items ≡ form_head form) }
    ensures gives_up { IfErr result (λ fault. fault ≡ F20) }
{
    let mut text = Vec::new(alloc);
    text.extend_from_slice(form.head())?;
    Ok(text)
}

/// The books of a journal that begins at the founding on this day.
fn books_from<S: Alter>(
    alloc: Global,
    connection: &mut Connection<S>,
    asked: &BooksAsked,
    journal: Journal,
    day: Day,
) -> Result<Books, Fault>
    requires alone { connection.old.in_transaction ≡ false }
    requires founds { IsFounding journal.begins day }
    ensures kept { IsUnchangedUnder IsThird (state S.Store connection.old) (state S.Store connection.new) }
    ensures gives_up { IfErr result (λ fault. fault ≡ F20) }
    ensures open { HasCleanDisk (state S.Store connection.new)
        → OnOk result (IsTrue (state S.Store connection.new).is_open) }
    ensures answer { HasCleanDisk (state S.Store connection.new) → IsThird (state S.Store connection.old).now.schema
        → (lines : List JournalLine) → KeepsJournalFrom journal.begins (state S.Store connection.old).now.trees lines
        → IfOk result (IsAnswer asked.now journal.begins lines) }
    ensures mode { connection.new.in_transaction ≡ false }
{
    let Ok(routes) = Routes::new(alloc) else {
        return Err(Fault::F20);
    };
    let mut store = found_in_memory(alloc, day)?;
    let mut text = begun(alloc, asked.form)?;
    match book_pages(alloc, &routes, connection, &mut store, asked, &mut text) {
        Ok(Ok(())) => Ok(Books::Written(text)),
        Ok(Err((number, why))) => Ok(Books::Stops { number, why }),
        Err(fault) => Err(fault),
    }
}

/// The books of a journal.
fn journal_books<S: Alter>(
    alloc: Global,
    connection: &mut Connection<S>,
    asked: &BooksAsked,
    journal: Journal,
) -> Result<Books, Fault>
    requires alone { connection.old.in_transaction ≡ false }
    ensures kept { IsUnchangedUnder IsThird (state S.Store connection.old) (state S.Store connection.new) }
    ensures gives_up { IfErr result (λ fault. fault ≡ F20) }
    ensures open { HasCleanDisk (state S.Store connection.new) → IsTrue (state S.Store connection.old).is_open
        → OnOk result (IsTrue (state S.Store connection.new).is_open) }
    ensures answer { HasCleanDisk (state S.Store connection.new) → IsThird (state S.Store connection.old).now.schema
        → (lines : List JournalLine) → KeepsJournalFrom journal.begins (state S.Store connection.old).now.trees lines
        → IfOk result (IsAnswer asked.now journal.begins lines) }
    ensures mode { connection.new.in_transaction ≡ false }
{
    match founding_day(journal.begins) {
        Ok(Some(day)) => books_from(alloc, connection, asked, journal, day),
        Ok(None) => Ok(Books::NoFounding),
        Err(fault) => Err(fault),
    }
}

/// The text of the books of the journal that a table keeps: of the transactions of its lines whose business day is from
/// the first to the last that is asked for. Where a line doesn't play, its number, and why; and it is told where the
/// journal doesn't begin at the founding of an institution. It plays in memory and changes nothing. The error is F20.
///
/// The answer speaks of tables of the third version that keep a journal. It is F20 too where no journal can be read,
/// which no such tables have. Where the rows beside the journal aren't those to which its lines lead, the books are
/// still the journal's.
pub fn write_books<S: Alter>(
    alloc: Global,
    connection: &mut Connection<S>,
    asked: &BooksAsked,
) -> Result<Books, Fault>
    requires alone { connection.old.in_transaction ≡ false }
    ensures kept { IsUnchangedUnder IsThird (state S.Store connection.old) (state S.Store connection.new) }
    ensures gives_up { IfErr result (λ fault. fault ≡ F20) }
    ensures open { HasCleanDisk (state S.Store connection.new)
        → OnOk result (IsTrue (state S.Store connection.new).is_open) }
    ensures answer { HasCleanDisk (state S.Store connection.new) → IsThird (state S.Store connection.old).now.schema
        → IfOk result (IsAnswerOf asked.now (state S.Store connection.old).now.trees) }
    ensures mode { connection.new.in_transaction ≡ false }
{
    match read_journal(connection) {
        Ok(Some(journal)) => journal_books(alloc, connection, asked, journal),
        Ok(None) => Err(Fault::F20),
        Err(fault) => Err(fault),
    }
}
