//! The verdict on a file, which holds after it what it held.

ghost use Rattle.std.specs.Prelude.{◌≡◌, None, true, IfOk, IfErr};
ghost use Rattle.sqlite.specs.Files.{file_state, over_files, HoldsDatabase};
ghost use Rattle.sqlite.specs.State.{HasCleanDisk};
ghost use Rattle.sqlite.specs.Tree.{Trees};
ghost use Rattle.sqlite_wal.specs.Files.{image_at};
ghost use Rattle.mf_base.specs.declared.fault.Fault.TheVariants.{F19};
ghost use Rattle.mf_model.specs.Institution.{Institution};
ghost use Rattle.mf_store.specs.Stands.{StandsFor};
ghost use Rattle.mf_store_files.specs.Opened.{HoldsNoneSound};
ghost use Rattle.mf_store_schema.specs.Writes.{Holds};
ghost use Rattle.mf_store_schema.specs.declared.versions.Version.{Version};
ghost use Rattle.mf_store_sound.specs.Held.{HoldsSoundAt};
ghost use Rattle.mf_store_verdict.specs.Verdict.{IsVerdictOfFile, IsFileVerdictFrom, TellsAllOfFile};

use crate::verdict::{Verdict, audit_and_play, audit_and_play_from};
use mf_copied_files::copy_in_memory;
use mf_store::Store;
use mf_store_files::Refused;
use mf_store_schema::{Progress, remove_bare_log};
use mf_store_sound::{Finding as FileFinding, reach};
use mf_store_sql::pages::PageStore;
use sqlite::{Connection, FileFrom, FileStore, Start, Unknown};
use std::rt::HostRuntime;

/// Audits the file at a path and plays its journal, where `start` stands for what the file held, and hands on the
/// connection that was asked. What the file holds isn't changed; a file that is missing is made, and an empty one made
/// a database without tables, so the caller sees first that there is one.
pub fn audit_file_with<S: Start, P: Progress>(
    rt: &HostRuntime,
    path: &str,
    start: S,
    all: bool,
    progress: &mut P,
) -> Result<(Verdict, Connection<FileStore<FileFrom<S>>>), FileFinding>
    ensures exact { IfOk result (λ seen. HasCleanDisk (file_state seen.1) → IsVerdictOfFile (image_at S.Start) seen.0) }
    ensures every { all ≡ true → IfOk result (λ seen. HasCleanDisk (file_state seen.1)
        → TellsAllOfFile (image_at S.Start) seen.0) }
    ensures leaves { IfOk result (λ seen. HasCleanDisk (file_state seen.1) → (trees : Trees)
        → HoldsDatabase (image_at S.Start) trees
        → (left : Trees) → (file_state seen.1).may_leave left → left ≡ trees) }
{
    let mut connection = reach(rt, path, start)?;
    match audit_and_play(rt.alloc(), &mut connection, all, progress) {
        Ok(verdict) => Ok((verdict, connection)),
        Err(_) => Err(FileFinding::Unread),
    }
}

/// Audits the file at a path and plays its journal, in `main` and where nothing is said of what it held.
pub fn audit_file<P: Progress>(
    rt: &HostRuntime,
    path: &str,
    all: bool,
    progress: &mut P,
) -> Result<Verdict, FileFinding> {
    let (verdict, held) = audit_file_with(rt, path, Unknown, all, progress)?;
    remove_bare_log(rt, path);
    drop(held);
    Ok(verdict)
}

/// Audits the file at a path and plays its journal from a copy in memory of the institution over which it was begun,
/// where `start` stands for what the file held, and hands on the connection that was asked.
fn audit_over_with<S: Start, P: Progress>(
    rt: &HostRuntime,
    path: &str,
    start: S,
    copy: Store<PageStore>,
    all: bool,
    progress: &mut P,
) -> Result<(Verdict, Connection<FileStore<FileFrom<S>>>), FileFinding>
    ensures exact { IfOk result (λ seen. HasCleanDisk (file_state seen.1) → (copied : Institution)
        → StandsFor over_files copy copied → IsFileVerdictFrom copied (image_at S.Start) seen.0) }
    ensures every { all ≡ true → IfOk result (λ seen. HasCleanDisk (file_state seen.1) → (copied : Institution)
        → StandsFor over_files copy copied → TellsAllOfFile (image_at S.Start) seen.0) }
    ensures leaves { IfOk result (λ seen. HasCleanDisk (file_state seen.1) → (trees : Trees)
        → HoldsDatabase (image_at S.Start) trees
        → (left : Trees) → (file_state seen.1).may_leave left → left ≡ trees) }
{
    let mut connection = reach(rt, path, start)?;
    match audit_and_play_from(rt.alloc(), &mut connection, copy, all, progress) {
        Ok(verdict) => Ok((verdict, connection)),
        Err(_) => Err(FileFinding::Unread),
    }
}

/// Why a file isn't audited from a copy.
#[derive(Clone, Copy, Drop)]
pub enum Unaudited {
    /// No institution is made of the copy.
    Copy(Refused),
    /// What was found of the file.
    File(FileFinding),
}

/// Audits the file at a path as `audit_file_with` does, but plays its journal from a copy of the file over which that
/// was begun: the bytes of its log, and of its database file. Only memory is written.
pub fn audit_from_copy_with<S: Start, P: Progress>(
    rt: &HostRuntime,
    path: &str,
    start: S,
    log: &[u8],
    db: &[u8],
    all: bool,
    progress: &mut P,
) -> Result<(Verdict, Connection<FileStore<FileFrom<S>>>), Unaudited>
    ensures exact { IfOk result (λ seen. HasCleanDisk (file_state seen.1) → (v : Version) (trees : Trees)
        → HoldsDatabase (record { log = log.now; db = db.now }) trees → (held : HoldsSoundAt v trees)
        → IsFileVerdictFrom held.institution (image_at S.Start) seen.0) }
    ensures every { all ≡ true → IfOk result (λ seen. HasCleanDisk (file_state seen.1) → (v : Version) (trees : Trees)
        → HoldsDatabase (record { log = log.now; db = db.now }) trees → HoldsSoundAt v trees
        → TellsAllOfFile (image_at S.Start) seen.0) }
    ensures leaves { IfOk result (λ seen. HasCleanDisk (file_state seen.1) → (trees : Trees)
        → HoldsDatabase (image_at S.Start) trees
        → (left : Trees) → (file_state seen.1).may_leave left → left ≡ trees) }
    ensures none { IfErr result (λ e. e ≡ Unaudited.Copy Refused.NoInstitution → (trees : Trees)
        → HoldsDatabase (record { log = log.now; db = db.now }) trees → Holds trees None) }
    ensures refused { IfErr result (λ e. e ≡ Unaudited.Copy (Refused.Failed F19)
        → HoldsNoneSound (record { log = log.now; db = db.now })) }
{
    let copy = match copy_in_memory(rt.alloc(), log, db, progress) {
        Ok(copy) => copy,
        Err(refused) => return Err(Unaudited::Copy(refused)),
    };
    match audit_over_with(rt, path, start, copy, all, progress) {
        Ok(seen) => Ok(seen),
        Err(finding) => Err(Unaudited::File(finding)),
    }
}

/// The same, in `main` and where nothing is said of what the file held.
pub fn audit_from_copy<P: Progress>(
    rt: &HostRuntime,
    path: &str,
    log: &[u8],
    db: &[u8],
    all: bool,
    progress: &mut P,
) -> Result<Verdict, Unaudited> {
    let (verdict, held) = audit_from_copy_with(rt, path, Unknown, log, db, all, progress)?;
    remove_bare_log(rt, path);
    drop(held);
    Ok(verdict)
}
