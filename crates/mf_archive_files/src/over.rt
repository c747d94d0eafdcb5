//! Lines that are moved from a store's file to an archive that is made for them.

ghost use Rattle.std.specs.Prelude.{◌≡◌, List, [], ◌∷◌, None, Some, Err, false};
ghost use Rattle.sqlite.specs.Files.{over_files};
ghost use Rattle.mf_model.specs.Institution.{Institution, JournalLine};
ghost use Rattle.mf_store.specs.Stands.{StandsFor, Leaves};
ghost use Rattle.mf_store_journal.specs.declared.journal.Journal.{Journal};
ghost use Rattle.mf_store_noted.specs.Tabled.{HasGoodDisk, IsTabled, LeavesTables};
ghost use Rattle.mf_store_files.specs.Closed.{CloseWell};
ghost use Rattle.mf_archive_files.specs.Finding.{IsFoundFor};
ghost use Rattle.mf_archive_files.specs.Moving.{ArchivesOver, CloseWellIf, CloseOver, told_of};

use crate::closing::{Closed, close_file};
use crate::finding::{Unmoved, first_lines};
use crate::making::new_archive;
use crate::moving::{Moved, archive_and_close};
use mf_base::{Day, Fault};
use mf_store::Store;
use mf_store_journal::Journal;
use mf_store_schema::remove_bare_log;
use sqlite::{Alter, Connection, File, FileFrom, FileStore, Start, Unknown};
use sqlite_disk::Disk;
use std::rt::HostRuntime;

/// The journal of a store that has lines of a business day or earlier ones, where that day is closed, and the
/// connection to its tables, which stay as they are.
fn lines_to_move<S: Alter>(
    mut store: Store<S>,
    day: Day,
) -> (Result<Journal, Unmoved>, Connection<S>)
    ensures alone { result.1.in_transaction ≡ false }
    ensures premise { HasGoodDisk S.Store result.1 → HasGoodDisk S.Store store.connection }
    ensures tabled { HasGoodDisk S.Store result.1 → (journal : Journal) → store.journal ≡ Some journal
        → (i : Institution) → StandsFor S.Store store i → IsTabled S.Store (Some journal) result.1 i }
    ensures leaves { HasGoodDisk S.Store result.1 → (journal : Journal) → store.journal ≡ Some journal
        → (i : Institution) → StandsFor S.Store store i → Leaves S.Store store (i ∷ [])
        → LeavesTables S.Store result.1 (i ∷ []) }
    ensures found { HasGoodDisk S.Store result.1 → (journal : Journal) (i : Institution) (lines : List JournalLine)
        → store.journal ≡ Some journal → StandsFor S.Store store i → i.journal ≡ Some lines
        → IsFoundFor day i.catalogue.day journal lines result.0 }
    ensures none { store.journal ≡ None → (result.0 ≡ Err Unmoved.NoJournal) × (result.1 ≡ store.connection) }
{
    if !store.keeps_journal() {
        return (Err(Unmoved::NoJournal), store.release());
    }
    let today = match store.business_day() {
        Ok(today) => today,
        Err(fault) => return (Err(Unmoved::Failed(fault)), store.release()),
    };
    let mut file = store.release();
    let found = first_lines(&mut file, today, day);
    (found, file)
}

/// What is told of lines that were to be moved to an archive that was made.
fn once_begun(moved: Result<Moved, Fault>) -> Result<Moved, Unmoved>
    ensures { result ≡ told_of moved }
{
    match moved {
        Ok(moved) => Ok(moved),
        Err(fault) => Err(Unmoved::Begun(fault)),
    }
}

/// Moves the lines of the institution's journal up to and with a business day from a store's file to the file at a
/// path, where `start` stands for what that held, and closes both; of a refusal nothing is moved, and the store's file
/// is closed as it was. The caller says whether the path is free: no archive is made where it isn't.
pub fn archive_over<D: Disk + Drop, S: Start>(
    rt: &HostRuntime,
    store: Store<FileStore<D>>,
    day: Day,
    path: &str,
    is_free: bool,
    start: S,
) -> (
    Result<Moved, Unmoved>,
    Closed<D>,
    Option<Closed<FileFrom<S>>>,
)
    ensures premise { CloseWell result.1 → HasGoodDisk over_files store.connection }
    ensures archives { CloseWell result.1 → CloseWellIf result.2 → (journal : Journal) (i : Institution)
        (lines : List JournalLine) → store.journal ≡ Some journal → StandsFor over_files store i
        → i.journal ≡ Some lines → Leaves over_files store (i ∷ [])
        → ArchivesOver day is_free journal.begins i lines result.0 result.1 result.2 }
    ensures none { store.journal ≡ None → result.0 ≡ Err Unmoved.NoJournal }
    ensures kept { CloseWell result.1 → store.journal ≡ None → (i : Institution) → StandsFor over_files store i
        → Leaves over_files store (i ∷ []) → CloseOver i (i ∷ []) result.1 }
{
    let (found, file) = lines_to_move(store, day);
    let journal = match found {
        Ok(journal) if is_free => journal,
        Ok(_) => return (Err(Unmoved::Taken), close_file(file), None),
        Err(unmoved) => return (Err(unmoved), close_file(file), None),
    };
    match new_archive(rt, path, start) {
        Ok(archive) => {
            let (moved, file, archive) = archive_and_close(rt.alloc(), file, archive, journal, day);
            (once_begun(moved), file, Some(archive))
        }
        Err(unmoved) => (Err(unmoved), close_file(file), None),
    }
}

/// As `archive_over`, in `main` and where nothing is said of what the archive's file held. It tells whether the archive
/// is whole without a log, where one was made.
pub fn archive_store<D: Disk + Drop>(
    rt: &HostRuntime,
    store: Store<FileStore<D>>,
    day: Day,
    path: &str,
    is_free: bool,
) -> (Result<Moved, Unmoved>, Closed<D>, bool) {
    let (moved, file, archive) = archive_over(rt, store, day, path, is_free, Unknown);
    (moved, file, let_go(rt, path, archive))
}

/// Lets go of an archive's files, where it was made, and removes the log where it has no page. It tells whether all of
/// the archive is in its database file.
fn let_go(rt: &HostRuntime, path: &str, archive: Option<Closed<File>>) -> bool {
    match archive {
        Some(Ok(_files)) => {
            remove_bare_log(rt, path);
            true
        }
        Some(Err(_)) => false,
        None => true,
    }
}
