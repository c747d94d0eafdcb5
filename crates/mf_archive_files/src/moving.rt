//! Lines that are moved from one file to another, and both closed.

ghost use Rattle.std.specs.Prelude.{◌≡◌, List, [], ◌∷◌, false};
ghost use Rattle.sqlite.specs.Files.{over_files};
ghost use Rattle.mf_model.specs.Institution.{Institution, JournalLine};
ghost use Rattle.mf_store_noted.specs.Tabled.{HasGoodDisk, LeavesTables};
ghost use Rattle.mf_store_files.specs.Closed.{CloseWell};
ghost use Rattle.mf_store_archive.specs.Archiving.{IsBefore};
ghost use Rattle.mf_archive_files.specs.Moving.{MovesAndCloses, MovesFrom, moved_of};

use crate::closing::{Closed, close_file};
use mf_base::{Day, Fault};
use mf_journal::Head;
use mf_store_archive::archive_lines;
use mf_store_journal::Journal;
use sqlite::{Alter, Connection, FileStore};
use sqlite_disk::Disk;
use std::alloc::Global;

/// The lines that were moved: those after the first head, up to the other.
#[derive(Clone, Copy)]
pub struct Moved {
    /// Where the archive begins, as the file's journal did.
    pub from: Head,
    /// Where the archive ends, and the file's journal begins.
    pub to: Head,
}

/// The lines that were moved, by the journal before and after.
fn moved_lines(journal: Journal, ended: Result<Journal, Fault>) -> Result<Moved, Fault>
    ensures { result ≡ moved_of journal ended }
{
    match ended {
        Ok(next) => Ok(Moved {
            from: journal.begins,
            to: next.begins,
        }),
        Err(fault) => Err(fault),
    }
}

/// Moves the lines of a journal up to and with a business day to an archive, a file that has no table yet
/// (`mf_store_archive::archive_lines`), and closes the file that they leave. F20 tells that it keeps its lines; the
/// archive may have a part of them.
fn archive_from<D: Disk + Drop, A: Alter>(
    alloc: Global,
    mut file: Connection<FileStore<D>>,
    archive: &mut Connection<A>,
    journal: Journal,
    day: Day,
) -> (Result<Moved, Fault>, Closed<D>)
    requires alone { file.in_transaction ≡ false }
    requires too { archive.old.in_transaction ≡ false }
    ensures premise { CloseWell result.1 → HasGoodDisk over_files file }
    ensures premise_too { HasGoodDisk A.Store archive.new → HasGoodDisk A.Store archive.old }
    ensures moves { CloseWell result.1 → HasGoodDisk A.Store archive.new → (i : Institution) (lines : List JournalLine)
        → IsBefore over_files A.Store journal i lines file archive.old → LeavesTables over_files file (i ∷ [])
        → MovesFrom A.Store day journal.begins i lines result.0 result.1 archive.new }
    ensures mode { archive.new.in_transaction ≡ false }
{
    let day = u64::from(day.number());
    let ended = archive_lines(alloc, &mut file, archive, journal, day);
    (moved_lines(journal, ended), close_file(file))
}

/// The same, and closes the archive too.
pub fn archive_and_close<D: Disk + Drop, A: Disk + Drop>(
    alloc: Global,
    file: Connection<FileStore<D>>,
    mut archive: Connection<FileStore<A>>,
    journal: Journal,
    day: Day,
) -> (Result<Moved, Fault>, Closed<D>, Closed<A>)
    requires alone { file.in_transaction ≡ false }
    requires too { archive.in_transaction ≡ false }
    ensures premise { CloseWell result.1 → HasGoodDisk over_files file }
    ensures premise_too { CloseWell result.2 → HasGoodDisk over_files archive }
    ensures moves { CloseWell result.1 → CloseWell result.2 → (i : Institution) (lines : List JournalLine)
        → IsBefore over_files over_files journal i lines file archive → LeavesTables over_files file (i ∷ [])
        → MovesAndCloses day journal.begins i lines result.0 result.1 result.2 }
{
    let (moved, closed) = archive_from(alloc, file, &mut archive, journal, day);
    (moved, closed, close_file(archive))
}
