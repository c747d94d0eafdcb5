//! Archives that are read from bytes, and the verdict on a file whose journal's first lines they have.

ghost use Rattle.std.specs.Prelude.{◌≡◌, true, List, IfOk, IfErr};
ghost use Rattle.mf_base.specs.declared.fault.Fault.TheVariants.{F20};
ghost use Rattle.sqlite.specs.Files.{file_state, HoldsDatabase};
ghost use Rattle.sqlite.specs.State.{HasCleanDisk};
ghost use Rattle.sqlite.specs.Tree.{Trees};
ghost use Rattle.sqlite_wal.specs.Files.{image_at};
ghost use Rattle.mf_journal.specs.declared.following.Head.{Head};
ghost use Rattle.mf_model.specs.Institution.{JournalLine};
ghost use Rattle.mf_store_archived.specs.Archives.{IsPart};
ghost use Rattle.mf_store_archived.specs.Joining.{AreArchives};
ghost use Rattle.mf_store_verdict.specs.Archives.{HoldsPart};
ghost use Rattle.mf_store_verdict.specs.Verdict.{IsFileVerdictOver, TellsAllOfFile};

use crate::verdict::{Verdict, audit_and_play_over};
use mf_base::Fault;
use mf_copied_files::connect_in_memory;
use mf_store_archived::{Archive, Unread, read_archive};
use mf_store_schema::{Progress, remove_bare_log};
use mf_store_sound::{Finding as FileFinding, reach};
use sqlite::{Connection, FileFrom, FileStore, Start, Unknown};
use std::alloc::Global;
use std::rt::HostRuntime;

/// The archive that the bytes of a file hold, and of the log beside it, with all its lines; else why none is made of
/// it. `Failed` is F20: out of memory, or bytes that hold no database.
pub fn archive_in_bytes(alloc: Global, log: &[u8], db: &[u8]) -> Result<Archive, Unread>
    // Whatever the bytes are, the lines are those of a journal.
    ensures whole { IfOk result (λ archive. (lines : List JournalLine) × IsPart archive lines) }

    // Of an archive they are those that it keeps, and nothing but F20 is told in place of them.
    ensures only { (begins : Head) (lines : List JournalLine)
        → HoldsPart (record { log = log.now; db = db.now }) begins lines
        → IfOk result (λ archive. (archive.begins ≡ begins) × IsPart archive lines) }
    ensures gives_up { (begins : Head) (lines : List JournalLine)
        → HoldsPart (record { log = log.now; db = db.now }) begins lines
        → IfErr result (λ unread. unread ≡ Unread.Failed F20) }
{
    match connect_in_memory(alloc, log, db) {
        Ok(mut connection) => read_archive(&mut connection),
        Err(fault) => Err(Unread::Failed(fault)),
    }
}

/// Audits the file at a path as `audit_file_with` does, but plays the lines of the archives that lead to where its
/// journal begins before its own. Only memory is written.
pub fn audit_over_archives_with<S: Start, P: Progress>(
    rt: &HostRuntime,
    path: &str,
    start: S,
    archives: &[Archive],
    all: bool,
    progress: &mut P,
) -> Result<(Verdict, Connection<FileStore<FileFrom<S>>>), FileFinding>
    ensures exact { IfOk result (λ seen. HasCleanDisk (file_state seen.1) → AreArchives archives.now
        → IsFileVerdictOver archives.now (image_at S.Start) seen.0) }
    ensures every { all ≡ true → IfOk result (λ seen. HasCleanDisk (file_state seen.1) → AreArchives archives.now
        → TellsAllOfFile (image_at S.Start) seen.0) }
    ensures leaves { IfOk result (λ seen. HasCleanDisk (file_state seen.1) → (trees : Trees)
        → HoldsDatabase (image_at S.Start) trees
        → (left : Trees) → (file_state seen.1).may_leave left → left ≡ trees) }
{
    let mut connection = reach(rt, path, start)?;
    match audit_and_play_over(rt.alloc(), &mut connection, archives, all, progress) {
        Ok(verdict) => Ok((verdict, connection)),
        Err(_) => Err(FileFinding::Unread),
    }
}

/// The same, in `main` and where nothing is said of what the file held.
pub fn audit_over_archives<P: Progress>(
    rt: &HostRuntime,
    path: &str,
    archives: &[Archive],
    all: bool,
    progress: &mut P,
) -> Result<Verdict, FileFinding> {
    let (verdict, held) = audit_over_archives_with(rt, path, Unknown, archives, all, progress)?;
    remove_bare_log(rt, path);
    drop(held);
    Ok(verdict)
}
