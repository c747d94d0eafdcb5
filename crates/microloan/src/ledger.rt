//! The books of an institution that keeps a journal, and what loans come to by portion, written on standard output.

ghost use Rattle.std.specs.Prelude.{◌≡◌, cond, false};
ghost use Rattle.mf_ledger.specs.declared.basis.Basis.TheVariants.{Cash, Accrual};
ghost use Rattle.microloan.specs.Status.{IsPrintStatus};

use crate::copies::{FileCopy, read_copy, words_of_copy};
use crate::following::Following;
use crate::telling::{print_bytes, tell_fault, tell_no_founding, tell_refusal, tell_stop};
use crate::working::let_go;
use mf_base::{Cause, Fault};
use mf_ledger::{Basis, Names};
use mf_ledger_play::{BooksAsked, BooksForm};
use mf_portions_play::write_portions;
use mf_store::Store;
use mf_store_files::close;
use mf_store_ledger::{Books, Unwritten, write_books, write_books_from_copy, write_movement};
use microloan_words::{DaySpan, FilePath, LedgerForm};
use sqlite::{Connection, FileStore, Files};
use sqlite_disk::Disk;
use std::rt::HostRuntime;
use std::{fs, io};

/// The form that the words ask for.
pub fn form_asked(form: LedgerForm) -> BooksForm {
    match form {
        LedgerForm::Hledger => BooksForm::Hledger,
        LedgerForm::Beancount => BooksForm::Beancount,
        LedgerForm::Sheet => BooksForm::Sheet,
    }
}

/// The basis that the words ask for.
pub fn basis_asked(accrual: bool) -> Basis
    ensures { result ≡ cond accrual Accrual Cash }
{
    if accrual { Basis::Accrual } else { Basis::Cash }
}

/// The names that a file gives, or none where no file is named. What fails is the reading of it, or memory.
pub fn names_in(rt: &HostRuntime, file: &Option<FilePath<'_>>) -> Result<Names, Cause> {
    let Some(file) = file else {
        return Ok(Names::none(rt.alloc()));
    };
    let Ok(text) = fs::read_to_string(rt, file.as_str()) else {
        return Err(Cause::Read);
    };
    match Names::read(rt.alloc(), text.as_str()) {
        Ok(names) => Ok(names),
        Err(_) => Err(Cause::Memory),
    }
}

/// The copy that the words name, if they name one. What fails is the reading of it.
pub fn copy_asked(rt: &HostRuntime, file: &Option<FilePath<'_>>) -> io::Result<Option<FileCopy>> {
    match file {
        None => Ok(None),
        Some(file) => Ok(Some(read_copy(rt, file.as_str())?)),
    }
}

/// Closes a connection to the tables of a file, as `mf_store_files::close` does.
fn close_tables<D: Disk + Drop>(
    connection: Connection<FileStore<D>>,
) -> Result<Files<D>, (Fault, FileStore<D>)>
    requires { connection.in_transaction ≡ false }
{
    match connection.close_files() {
        Ok(files) => Ok(files),
        Err((_, rest)) => Err((Fault::F20, rest)),
    }
}

/// Writes the books of the journal that a store keeps, and gives the program's status. The file is closed first.
pub fn write_ledger<R: Print + Eprint + AllocGlobal, D: Disk + Drop>(
    rt: &R,
    store: Store<FileStore<D>>,
    asked: &BooksAsked,
) -> u8
    ensures { IsPrintStatus result }
{
    let mut connection = store.release();
    let books = write_books(rt.alloc(), &mut connection, asked);
    let_go(close_tables(connection));
    print_books(rt, books)
}

/// Writes the same from the copy of the file over whose rows the journal was begun. The file is closed first.
pub fn write_ledger_from<D: Disk + Drop>(
    rt: &HostRuntime,
    file: &str,
    store: Store<FileStore<D>>,
    asked: &BooksAsked,
    copy: &FileCopy,
) -> u8
    ensures { IsPrintStatus result }
{
    let mut connection = store.release();
    let mut following = Following::new(rt, file);
    let books = write_books_from_copy(
        rt.alloc(),
        &mut connection,
        asked,
        &copy.log,
        &copy.db,
        &mut following,
    );
    let_go(close_tables(connection));
    match books {
        Ok(books) => print_books(rt, Ok(books)),
        Err(Unwritten::Failed) => tell_refusal(rt, Fault::F20),
        Err(Unwritten::Copy(refused)) => tell_fault(rt, words_of_copy(refused)),
    }
}

/// Writes the movement of a span of days by the journal that a store keeps, and gives the program's status. The file is
/// closed first.
pub fn write_moved<R: Print + Eprint + AllocGlobal, D: Disk + Drop>(
    rt: &R,
    store: Store<FileStore<D>>,
    span: DaySpan,
) -> u8
    ensures { IsPrintStatus result }
{
    let mut connection = store.release();
    let moved = write_movement(rt.alloc(), &mut connection, span.first, span.last);
    let_go(close_tables(connection));
    print_books(rt, moved)
}

/// Prints what loans come to by portion, and gives the program's status. The file is closed first.
pub fn print_portions<R: Print + Eprint + AllocGlobal, D: Disk + Drop>(
    rt: &R,
    mut store: Store<FileStore<D>>,
) -> u8
    ensures { IsPrintStatus result }
{
    let made = write_portions(rt.alloc(), &mut store);
    let_go(close(store));
    match made {
        Ok(text) => print_bytes(rt, &text),
        Err(fault) => tell_refusal(rt, fault),
    }
}

/// Prints what was written of a journal, or says why there is nothing, and gives the program's status.
fn print_books<R: Print + Eprint>(rt: &R, books: Result<Books, Fault>) -> u8
    ensures { IsPrintStatus result }
{
    match books {
        Ok(Books::Written(text)) => print_bytes(rt, &text),
        Ok(Books::NoFounding) => tell_no_founding(rt),
        Ok(Books::OtherCopy) => tell_fault(
            rt,
            "the journal was begun over other rows than those of the copy",
        ),
        Ok(Books::Stops { number, why }) => tell_stop(rt, number, why),
        Err(fault) => tell_refusal(rt, fault),
    }
}
