//! The books of a journal that was begun over rows, from a copy of these.

ghost use Rattle.std.specs.Prelude.{◌≡◌, List, false, IsTrue, OnOk, IfOk, IfErr};
ghost use Rattle.mf_base.specs.declared.fault.Fault.TheVariants.{F20};
ghost use Rattle.sqlite.specs.Files.{over_files};
ghost use Rattle.sqlite.specs.Held.{state};
ghost use Rattle.sqlite.specs.State.{HasCleanDisk};
ghost use Rattle.mf_model.specs.Institution.{Institution, JournalLine};
ghost use Rattle.mf_store.specs.Stands.{StandsFor};
ghost use Rattle.mf_store_schema.specs.Schemas.{IsUnchangedUnder};
ghost use Rattle.mf_store_journal.specs.Reading.{IsThird};
ghost use Rattle.mf_store_journal.specs.Written.{KeepsJournalFrom};
ghost use Rattle.mf_store_noted.specs.Kept.{journaled};
ghost use Rattle.mf_store_played.specs.Answer.{IsBegunOver, IsCopy};
ghost use Rattle.mf_store_ledger.specs.Copied.{IsCopyAnswer, IsCopyAnswerOf};

use crate::answer::Books;
use crate::pages::book_pages;
use crate::writing::begun;
use mf_base::Fault;
use mf_ledger_play::{BooksAsked, book_opening};
use mf_store::Store;
use mf_store_journal::{Journal, read_journal};
use mf_store_played::{begun_over, is_at};
use mf_store_sql::pages::PageStore;
use mf_wire_requests::Routes;
use sqlite::{Alter, Connection};
use std::alloc::Global;

/// The books of a journal over the copy at which it begins.
fn books_over<S: Alter>(
    alloc: Global,
    connection: &mut Connection<S>,
    asked: &BooksAsked,
    mut store: Store<PageStore>,
    journal: Journal,
) -> Result<Books, Fault>
    requires alone { connection.old.in_transaction ≡ false }
    ensures kept { IsUnchangedUnder IsThird (state S.Store connection.old) (state S.Store connection.new) }
    ensures gives_up { IfErr result (λ fault. fault ≡ F20) }
    ensures open { HasCleanDisk (state S.Store connection.new) → IsTrue (state S.Store connection.old).is_open
        → OnOk result (IsTrue (state S.Store connection.new).is_open) }
    ensures answer { HasCleanDisk (state S.Store connection.new) → IsThird (state S.Store connection.old).now.schema
        → (copied : Institution) (lines : List JournalLine) → IsCopy copied journal.begins
        → StandsFor over_files store (journaled copied)
        → KeepsJournalFrom journal.begins (state S.Store connection.old).now.trees lines
        → IfOk result (IsCopyAnswer asked.now copied journal.begins lines) }
    ensures mode { connection.new.in_transaction ≡ false }
{
    let Ok(routes) = Routes::new(alloc) else {
        return Err(Fault::F20);
    };
    let mut text = begun(alloc, asked.form)?;
    match book_opening(alloc, &mut store, asked, &mut text) {
        Ok(()) => {}
        Err(fault) => return Err(fault),
    }
    match book_pages(alloc, &routes, connection, &mut store, asked, &mut text) {
        Ok(Ok(())) => Ok(Books::Written(text)),
        Ok(Err((number, why))) => Ok(Books::Stops { number, why }),
        Err(fault) => Err(fault),
    }
}

/// The books of a journal, from a copy that got the journal which would be begun over it.
fn books_begun<S: Alter>(
    alloc: Global,
    connection: &mut Connection<S>,
    asked: &BooksAsked,
    store: Store<PageStore>,
    journal: Journal,
) -> Result<Books, Fault>
    requires alone { connection.old.in_transaction ≡ false }
    ensures kept { IsUnchangedUnder IsThird (state S.Store connection.old) (state S.Store connection.new) }
    ensures gives_up { IfErr result (λ fault. fault ≡ F20) }
    ensures open { HasCleanDisk (state S.Store connection.new) → IsTrue (state S.Store connection.old).is_open
        → OnOk result (IsTrue (state S.Store connection.new).is_open) }
    ensures answer { HasCleanDisk (state S.Store connection.new) → IsThird (state S.Store connection.old).now.schema
        → (copied : Institution) (lines : List JournalLine) → IsBegunOver copied store
        → KeepsJournalFrom journal.begins (state S.Store connection.old).now.trees lines
        → IfOk result (IsCopyAnswer asked.now copied journal.begins lines) }
    ensures mode { connection.new.in_transaction ≡ false }
{
    if is_at(store.journal_begins(), journal.begins) {
        return books_over(alloc, connection, asked, store, journal);
    }
    Ok(Books::OtherCopy)
}

/// The books of a journal, from a copy.
fn copied_books<S: Alter>(
    alloc: Global,
    connection: &mut Connection<S>,
    asked: &BooksAsked,
    copy: Store<PageStore>,
    journal: Journal,
) -> Result<Books, Fault>
    requires alone { connection.old.in_transaction ≡ false }
    ensures kept { IsUnchangedUnder IsThird (state S.Store connection.old) (state S.Store connection.new) }
    ensures gives_up { IfErr result (λ fault. fault ≡ F20) }
    ensures open { HasCleanDisk (state S.Store connection.new) → IsTrue (state S.Store connection.old).is_open
        → OnOk result (IsTrue (state S.Store connection.new).is_open) }
    ensures answer { HasCleanDisk (state S.Store connection.new) → IsThird (state S.Store connection.old).now.schema
        → (copied : Institution) (lines : List JournalLine) → StandsFor over_files copy copied
        → KeepsJournalFrom journal.begins (state S.Store connection.old).now.trees lines
        → IfOk result (IsCopyAnswer asked.now copied journal.begins lines) }
    ensures mode { connection.new.in_transaction ≡ false }
{
    match begun_over(alloc, copy) {
        Ok(Some(store)) => books_begun(alloc, connection, asked, store, journal),
        Ok(None) => Ok(Books::OtherCopy),
        Err(fault) => Err(fault),
    }
}

/// The text of the books of the journal that a table keeps, where it was begun over rows: they open with the balances
/// of a copy of these on the copy's business day, and go on with the transactions of the journal's lines; of both what
/// is dated from the first day to the last that is asked for. Where a line doesn't play, its number, and why; and it is
/// told where the journal wasn't begun over the rows of the copy: a copy that keeps a journal, one of another day, a
/// journal that begins at a founding. It plays in memory, over the copy, and changes nothing else. The error is F20.
///
/// The answer speaks of tables of the third version that keep a journal, and of a copy that stands for an institution.
pub fn write_books_from<S: Alter>(
    alloc: Global,
    connection: &mut Connection<S>,
    asked: &BooksAsked,
    copy: Store<PageStore>,
) -> Result<Books, Fault>
    requires alone { connection.old.in_transaction ≡ false }
    ensures kept { IsUnchangedUnder IsThird (state S.Store connection.old) (state S.Store connection.new) }
    ensures gives_up { IfErr result (λ fault. fault ≡ F20) }
    ensures open { HasCleanDisk (state S.Store connection.new)
        → OnOk result (IsTrue (state S.Store connection.new).is_open) }
    ensures answer { HasCleanDisk (state S.Store connection.new) → IsThird (state S.Store connection.old).now.schema
        → (copied : Institution) → StandsFor over_files copy copied
        → IfOk result (IsCopyAnswerOf asked.now copied (state S.Store connection.old).now.trees) }
    ensures mode { connection.new.in_transaction ≡ false }
{
    match read_journal(connection) {
        Ok(Some(journal)) => copied_books(alloc, connection, asked, copy, journal),
        Ok(None) => Err(Fault::F20),
        Err(fault) => Err(fault),
    }
}
