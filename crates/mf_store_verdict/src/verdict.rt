//! The audit of the tables of a connection, with the play of their journal.

ghost use Rattle.std.specs.Prelude.{◌≡◌, ◌↔◌, IsTrue, true, false, None, Some, IfOk, IfErr};
ghost use Rattle.mf_base.specs.declared.fault.Fault.TheVariants.{F20};
ghost use Rattle.sqlite.specs.Effect.{Database};
ghost use Rattle.sqlite.specs.Files.{over_files};
ghost use Rattle.sqlite.specs.Held.{state};
ghost use Rattle.sqlite.specs.State.{HasCleanDisk};
ghost use Rattle.mf_model.specs.Institution.{Institution};
ghost use Rattle.mf_store_schema.specs.Schemas.{IsUnchangedUnder};
ghost use Rattle.mf_store_sound.specs.Told.{IsAny, HaveOwnRowids};
ghost use Rattle.mf_store_audit.specs.Audits.{FindsNoSuspect, FindsSound, IsAuditOf, TellsAll};
ghost use Rattle.mf_store.specs.Stands.{StandsFor};
ghost use Rattle.mf_store_verdict.specs.Verdict.{FindsJournal, HoldsUp, IsPassed, IsRightBy, Passes, Shows};
ghost use Rattle.mf_store_verdict.specs.Verdict.{IsVerdictBy, IsVerdictFrom, IsVerdictOf, IsVerdictOver};
ghost use Rattle.mf_store_archived.specs.Joining.{AreArchives};

use crate::playing::{Beginning, play_known};
use mf_base::Fault;
use mf_store::Store;
use mf_store_archived::Archive;
use mf_store_audit::{Audit, audit_tables};
use mf_store_played::Played;
use mf_store_schema::{Progress, Version};
use mf_store_sql::pages::PageStore;
use sqlite::{Alter, Connection};
use std::alloc::Global;

/// An audit of tables. Where it finds a sound institution with a journal, also what the play of that says of them.
#[derive(Drop)]
pub struct Verdict {
    pub audit: Audit,
    pub played: Option<Played>,
}

/// Whether an audit found a sound institution.
fn finds_sound(audit: &Audit) -> bool
    ensures { IsTrue result ↔ FindsSound audit.now }
{
    match audit {
        Audit::Sound { .. } => true,
        _ => false,
    }
}

/// Whether an audit found a sound institution without a suspect entry.
fn finds_no_suspect(audit: &Audit) -> bool
    ensures { IsTrue result ↔ FindsNoSuspect audit.now }
{
    match audit {
        Audit::Sound { suspects, .. } => suspects.is_empty(),
        _ => false,
    }
}

/// Whether an audit found a sound institution with a journal.
fn finds_journal(audit: &Audit) -> bool
    ensures { IsTrue result ↔ FindsJournal audit.now }
{
    match audit {
        Audit::Sound { version, .. } => *version == Version::Third,
        _ => false,
    }
}

/// Whether a play leads to the tables, as far as there was one.
fn is_passed(played: &Option<Played>) -> bool
    ensures { IsTrue result ↔ IsPassed played.now }
{
    match played {
        None => true,
        Some(Played::Leads(_) | Played::NoFounding(_)) => true,
        Some(Played::Stops { .. } | Played::Differs(_) | Played::OtherCopy(_)) => false,
        Some(Played::Lacks(_)) => false,
    }
}

/// Whether the tables hold a sound institution, and its journal leads there, where it is played.
pub fn holds_up(verdict: &Verdict) -> bool
    ensures { IsTrue result ↔ HoldsUp verdict.now }
{
    finds_sound(&verdict.audit) && is_passed(&verdict.played)
}

/// Whether the tables pass: they hold up, and no entry is suspect.
pub fn passes(verdict: &Verdict) -> bool
    ensures { IsTrue result ↔ Passes verdict.now }
{
    holds_up(verdict) && finds_no_suspect(&verdict.audit)
}

/// The verdict by an audit that found a journal, and by what its play says.
fn play_found<S: Alter>(
    alloc: Global,
    connection: &mut Connection<S>,
    audit: Audit,
    beginning: Beginning<'_>,
) -> Result<Verdict, Fault>
    requires alone { connection.old.in_transaction ≡ false }
    requires finds { FindsJournal audit }
    ensures kept { IsUnchangedUnder IsAny (state S.Store connection.old) (state S.Store connection.new) }
    ensures exact { HasCleanDisk (state S.Store connection.new) → (db : Database)
        → Shows (state S.Store connection.old) db → IsAuditOf db audit
        → IfOk result (IsVerdictBy (IsRightBy beginning.entry) db) }
    ensures audit { IfOk result (λ verdict. verdict.audit ≡ audit) }
    ensures gives_up { IfErr result (λ fault. fault ≡ F20) }
    ensures mode { connection.new.in_transaction ≡ false }
{
    match play_known(alloc, connection, beginning) {
        Ok(played) => Ok(Verdict {
            audit,
            played: Some(played),
        }),
        Err(fault) => Err(fault),
    }
}

/// The verdict by an audit.
fn verdict_of<S: Alter>(
    alloc: Global,
    connection: &mut Connection<S>,
    audit: Audit,
    beginning: Beginning<'_>,
) -> Result<Verdict, Fault>
    requires alone { connection.old.in_transaction ≡ false }
    ensures kept { IsUnchangedUnder IsAny (state S.Store connection.old) (state S.Store connection.new) }
    ensures exact { HasCleanDisk (state S.Store connection.new) → (db : Database)
        → Shows (state S.Store connection.old) db → IsAuditOf db audit
        → IfOk result (IsVerdictBy (IsRightBy beginning.entry) db) }
    ensures audit { IfOk result (λ verdict. verdict.audit ≡ audit) }
    ensures gives_up { IfErr result (λ fault. fault ≡ F20) }
    ensures mode { connection.new.in_transaction ≡ false }
{
    if finds_journal(&audit) {
        return play_found(alloc, connection, audit, beginning);
    }
    Ok(Verdict {
        audit,
        played: None,
    })
}

/// The verdict on the tables of a connection, with a journal that is played from such a beginning.
fn audit_with<S: Alter, P: Progress>(
    alloc: Global,
    connection: &mut Connection<S>,
    beginning: Beginning<'_>,
    all: bool,
    progress: &mut P,
) -> Result<Verdict, Fault>
    requires alone { connection.old.in_transaction ≡ false }
    ensures kept { IsUnchangedUnder IsAny (state S.Store connection.old) (state S.Store connection.new) }
    ensures exact { HasCleanDisk (state S.Store connection.new) → HaveOwnRowids (state S.Store connection.old).now
        → IfOk result (IsVerdictBy (IsRightBy beginning.entry) (state S.Store connection.old).now) }
    ensures every { all ≡ true → HasCleanDisk (state S.Store connection.new)
        → IfOk result (λ verdict. TellsAll (state S.Store connection.old).now verdict.audit) }
    ensures gives_up { IfErr result (λ fault. fault ≡ F20) }
    ensures mode { connection.new.in_transaction ≡ false }
{
    match audit_tables(alloc, connection, all, progress) {
        Ok(audit) => verdict_of(alloc, connection, audit, beginning),
        Err(fault) => Err(fault),
    }
}

/// Audits the tables of a connection, whatever tables and rows stand there, as `audit_tables` does: it tells all that
/// is found, or the first alone. Where it finds a sound institution with a journal, it plays that from its founding, in
/// memory. It changes nothing. The error is F20, out of memory or a failure of the disk.
pub fn audit_and_play<S: Alter, P: Progress>(
    alloc: Global,
    connection: &mut Connection<S>,
    all: bool,
    progress: &mut P,
) -> Result<Verdict, Fault>
    requires alone { connection.old.in_transaction ≡ false }
    ensures kept { IsUnchangedUnder IsAny (state S.Store connection.old) (state S.Store connection.new) }
    ensures exact { HasCleanDisk (state S.Store connection.new) → HaveOwnRowids (state S.Store connection.old).now
        → IfOk result (IsVerdictOf (state S.Store connection.old).now) }
    ensures every { all ≡ true → HasCleanDisk (state S.Store connection.new)
        → IfOk result (λ verdict. TellsAll (state S.Store connection.old).now verdict.audit) }
    ensures gives_up { IfErr result (λ fault. fault ≡ F20) }
    ensures mode { connection.new.in_transaction ≡ false }
{
    audit_with(alloc, connection, Beginning::Founding, all, progress)
}

/// As `audit_and_play`, but the journal is played from a copy in memory of the institution over which it was begun, and
/// over that copy.
pub fn audit_and_play_from<S: Alter, P: Progress>(
    alloc: Global,
    connection: &mut Connection<S>,
    copy: Store<PageStore>,
    all: bool,
    progress: &mut P,
) -> Result<Verdict, Fault>
    requires alone { connection.old.in_transaction ≡ false }
    ensures kept { IsUnchangedUnder IsAny (state S.Store connection.old) (state S.Store connection.new) }
    ensures exact { HasCleanDisk (state S.Store connection.new) → HaveOwnRowids (state S.Store connection.old).now
        → (copied : Institution) → StandsFor over_files copy copied
        → IfOk result (IsVerdictFrom copied (state S.Store connection.old).now) }
    ensures every { all ≡ true → HasCleanDisk (state S.Store connection.new)
        → IfOk result (λ verdict. TellsAll (state S.Store connection.old).now verdict.audit) }
    ensures gives_up { IfErr result (λ fault. fault ≡ F20) }
    ensures mode { connection.new.in_transaction ≡ false }
{
    audit_with(alloc, connection, Beginning::Copy(copy), all, progress)
}

/// As `audit_and_play`, but of a journal whose first lines were moved to archives: the lines of the archives that lead
/// to where it begins are played before its own.
pub fn audit_and_play_over<S: Alter, P: Progress>(
    alloc: Global,
    connection: &mut Connection<S>,
    archives: &[Archive],
    all: bool,
    progress: &mut P,
) -> Result<Verdict, Fault>
    requires alone { connection.old.in_transaction ≡ false }
    ensures kept { IsUnchangedUnder IsAny (state S.Store connection.old) (state S.Store connection.new) }
    ensures exact { HasCleanDisk (state S.Store connection.new) → HaveOwnRowids (state S.Store connection.old).now
        → AreArchives archives.now
        → IfOk result (IsVerdictOver archives.now (state S.Store connection.old).now) }
    ensures every { all ≡ true → HasCleanDisk (state S.Store connection.new)
        → IfOk result (λ verdict. TellsAll (state S.Store connection.old).now verdict.audit) }
    ensures gives_up { IfErr result (λ fault. fault ≡ F20) }
    ensures mode { connection.new.in_transaction ≡ false }
{
    audit_with(
        alloc,
        connection,
        Beginning::Archives(archives),
        all,
        progress,
    )
}
