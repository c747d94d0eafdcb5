//! An audit of the journal beside the other tables.

ghost use Rattle.std.specs.Prelude.{◌≡◌, ◌↔◌, IsTrue, false, OnOk, IfOk, IfErr};
ghost use Rattle.mf_base.specs.declared.fault.Fault.TheVariants.{F20};
ghost use Rattle.sqlite.specs.Effect.{Database};
ghost use Rattle.sqlite.specs.Held.{state};
ghost use Rattle.sqlite.specs.State.{HasCleanDisk};
ghost use Rattle.mf_store_schema.specs.Schemas.{IsUnchangedUnder};
ghost use Rattle.mf_store_schema.specs.Versions.{IsOfVersion};
ghost use Rattle.mf_store_schema.specs.Whole.{HaveRowids};
ghost use Rattle.mf_store_schema.specs.declared.versions.Version.TheVariants.{Third};
ghost use Rattle.mf_store_audit.specs.Audits.{FindsSound, IsBroken, IsWithJournal, KeepsOnly, TellsAll};

use crate::audits::Audit;
use mf_base::Fault;
use mf_store_journal::{Flaw, Found, Journal, check_journal, read_journal};
use mf_store_told::first_untold_line;
use sqlite::{Alter, Connection};
use std::alloc::Global;

/// What is wrong with the rows of a journal.
#[derive(Clone, Copy)]
pub enum BrokenJournal {
    /// There is none.
    NoRows,
    /// The first doesn't say where the journal begins.
    NoBeginning,
    /// The first that doesn't follow on those before it.
    Row(Flaw),
    /// Each follows on those before it; the line with this number is the first that tells no request: it tells no
    /// caller, or its text reads as no request.
    NoRequest(u64),
}

/// What is wrong with the journal of a table that keeps none which the program can have written.
fn broken_journal<S: Alter>(connection: &mut Connection<S>) -> Result<BrokenJournal, Fault>
    requires alone { connection.old.in_transaction ≡ false }
    ensures kept { IsUnchangedUnder (IsOfVersion Third) (state S.Store connection.old)
        (state S.Store connection.new) }
    ensures open { HasCleanDisk (state S.Store connection.new)
        → OnOk result (IsTrue (state S.Store connection.new).is_open) }
    ensures broken { HasCleanDisk (state S.Store connection.new)
        → IsOfVersion Third (state S.Store connection.old).now.schema
        → IfOk result (IsBroken (state S.Store connection.old).now.trees) }
    ensures gives_up { IfErr result (λ fault. fault ≡ F20) }
    ensures mode { connection.new.in_transaction ≡ false }
{
    match check_journal(connection) {
        Ok(Found::Nothing) => Ok(BrokenJournal::NoRows),
        Ok(Found::NoBeginning) => Ok(BrokenJournal::NoBeginning),
        Ok(Found::Flawed(flaw)) => Ok(BrokenJournal::Row(flaw)),
        // The table was just found to keep no journal.
        Ok(Found::Whole(_)) => Err(Fault::F20),
        Err(fault) => Err(fault),
    }
}

/// Whether an audit found a sound institution.
fn finds_sound(audit: &Audit) -> bool
    ensures { IsTrue result ↔ FindsSound audit.now }
{
    match audit {
        Audit::Sound { .. } => true,
        _ => false,
    }
}

/// The audit of tables that keep this journal, by that of all but the journal: the first of its lines that tells no
/// request is told where nothing else is. The error is F20.
fn audit_lines<S: Alter>(
    alloc: Global,
    connection: &mut Connection<S>,
    audit: Audit,
    journal: Journal,
) -> Result<Audit, Fault>
    requires alone { connection.old.in_transaction ≡ false }
    ensures kept { IsUnchangedUnder (IsOfVersion Third) (state S.Store connection.old)
        (state S.Store connection.new) }
    ensures exact { HasCleanDisk (state S.Store connection.new)
        → IsOfVersion Third (state S.Store connection.old).now.schema
        → KeepsOnly journal (state S.Store connection.old).now.trees
        → IfOk result (IsWithJournal (state S.Store connection.old).now.trees audit) }
    ensures every { (db : Database) → TellsAll db audit → IfOk result (TellsAll db) }
    ensures gives_up { IfErr result (λ fault. fault ≡ F20) }
    ensures mode { connection.new.in_transaction ≡ false }
{
    match first_untold_line(alloc, connection, journal.begins) {
        Ok(None) => Ok(audit),
        Ok(Some(number)) => Ok(Audit::BrokenJournal(BrokenJournal::NoRequest(number))),
        Err(fault) => Err(fault),
    }
}

/// The audit of tables of the third version, by that of all but the journal: what is wrong with that is told where
/// nothing else is. The error is F20.
pub(crate) fn audit_journal<S: Alter>(
    alloc: Global,
    connection: &mut Connection<S>,
    audit: Audit,
) -> Result<Audit, Fault>
    requires alone { connection.old.in_transaction ≡ false }
    ensures kept { IsUnchangedUnder (IsOfVersion Third) (state S.Store connection.old)
        (state S.Store connection.new) }
    ensures exact { HasCleanDisk (state S.Store connection.new)
        → IsOfVersion Third (state S.Store connection.old).now.schema
        → HaveRowids Third (state S.Store connection.old).now.trees
        → IfOk result (IsWithJournal (state S.Store connection.old).now.trees audit) }
    ensures every { (db : Database) → TellsAll db audit → IfOk result (TellsAll db) }
    ensures gives_up { IfErr result (λ fault. fault ≡ F20) }
    ensures mode { connection.new.in_transaction ≡ false }
{
    if !finds_sound(&audit) {
        return Ok(audit);
    }
    match read_journal(connection) {
        Ok(Some(journal)) => return audit_lines(alloc, connection, audit, journal),
        Ok(None) => {}
        Err(fault) => return Err(fault),
    }
    let broken = broken_journal(connection)?;
    Ok(Audit::BrokenJournal(broken))
}
