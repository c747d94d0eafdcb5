//! An audit of the tables of a connection.

ghost use Rattle.std.specs.Prelude.{◌≡◌, ◌↔◌, IsTrue, [], true, false, IfOk, IfErr};
ghost use Rattle.mf_base.specs.declared.fault.Fault.TheVariants.{F20};
ghost use Rattle.sqlite.specs.Effect.{Database};
ghost use Rattle.sqlite.specs.Held.{state};
ghost use Rattle.sqlite.specs.State.{HasCleanDisk};
ghost use Rattle.mf_store_schema.specs.Schemas.{IsUnchangedUnder};
ghost use Rattle.mf_store_schema.specs.Versions.{IsOfVersion};
ghost use Rattle.mf_store_schema.specs.Whole.{HaveRowids};
ghost use Rattle.mf_store_sound.specs.Told.{IsAny, HaveOwnRowids};
ghost use Rattle.mf_store_audit.specs.Audits.{IsAuditOfRows, IsAuditOf, TellsAll};

use crate::find::{are_none, findings};
use crate::finding::Finding;
use crate::journal::{BrokenJournal, audit_journal};
use crate::searched::unread_at;
use crate::sums_by_office::office_sums;
use crate::suspects::suspects;
use crate::totals::OfficeSums;
use crate::unread::Unread;
use mf_base::Fault;
use mf_store_schema::{Progress, Version, has_no_tables, version_of};
use mf_store_sound::{Tables, read_tables};
use sqlite::{Alter, Connection};
use std::alloc::Global;

/// What an audit finds in tables.
#[derive(Drop)]
pub enum Audit {
    /// There are none.
    NoTables,
    /// They are others than this program makes.
    OtherTables,
    /// They hold a sound institution, by the tables of this version: the rows, what those of its offices come to, and
    /// which entries are suspect.
    Sound {
        version: Version,
        tables: Tables,
        sums: Vec<OfficeSums>,
        suspects: Vec<Finding>,
    },
    /// They hold the rows of no sound institution: the rows, and those of them that break a condition.
    Unsound {
        version: Version,
        tables: Tables,
        findings: Vec<Finding>,
    },
    /// They have these rows that no record can hold.
    Unreadable {
        version: Version,
        unread: Vec<Unread>,
    },
    /// Their other rows are those of a sound institution, and the journal's are not.
    BrokenJournal(BrokenJournal),
}

/// An audit of rows by the tables of a version: of all that break a condition or are suspect, or of the first alone.
fn audit_rows(alloc: Global, version: Version, tables: Tables, all: bool) -> Result<Audit, Fault>
    ensures exact { IfOk result (IsAuditOfRows version tables) }
    ensures every { all ≡ true → (db : Database) → IfOk result (TellsAll db) }
    ensures gives_up { IfErr result (λ fault. fault ≡ F20) }
{
    let found = findings(alloc, version, &tables, all)?;
    if !are_none(&found) {
        return Ok(Audit::Unsound {
            version,
            tables,
            findings: found,
        });
    }
    let sums = office_sums(alloc, &tables)?;
    let mut suspects = suspects(alloc, &tables)?;
    if !all {
        suspects.truncate(1);
    }
    Ok(Audit::Sound {
        version,
        tables,
        sums,
        suspects,
    })
}

/// An audit of the tables of a connection that has those of a version, whatever rows stand there.
fn audit_known<S: Alter, P: Progress>(
    alloc: Global,
    connection: &mut Connection<S>,
    version: Version,
    all: bool,
    progress: &mut P,
) -> Result<Audit, Fault>
    requires alone { connection.old.in_transaction ≡ false }
    ensures kept { IsUnchangedUnder (IsOfVersion version) (state S.Store connection.old)
        (state S.Store connection.new) }
    ensures exact { HasCleanDisk (state S.Store connection.new)
        → IsOfVersion version (state S.Store connection.old).now.schema
        → HaveRowids version (state S.Store connection.old).now.trees
        → IfOk result (IsAuditOf (state S.Store connection.old).now) }
    ensures every { all ≡ true → HasCleanDisk (state S.Store connection.new)
        → IsOfVersion version (state S.Store connection.old).now.schema
        → IfOk result (TellsAll (state S.Store connection.old).now) }
    ensures gives_up { IfErr result (λ fault. fault ≡ F20) }
    ensures mode { connection.new.in_transaction ≡ false }
{
    let Some(tables) = read_tables(alloc, connection, version, progress)? else {
        let unread = unread_at(alloc, connection, version, all)?;
        return Ok(Audit::Unreadable { version, unread });
    };
    let audit = audit_rows(alloc, version, tables, all)?;
    match version {
        Version::First | Version::Second => Ok(audit),
        Version::Third => audit_journal(alloc, connection, audit),
    }
}

/// Audits the tables of a connection, whatever tables and rows stand there: tells each row that breaks a condition, or
/// is suspect where none does, or the first alone; and where there are rows that no record can hold, these in their
/// place. It changes nothing. The error is F20, out of memory or a failure of the disk.
pub fn audit_tables<S: Alter, P: Progress>(
    alloc: Global,
    connection: &mut Connection<S>,
    all: bool,
    progress: &mut P,
) -> Result<Audit, Fault>
    requires alone { connection.old.in_transaction ≡ false }
    ensures kept { IsUnchangedUnder IsAny (state S.Store connection.old) (state S.Store connection.new) }
    ensures exact { HasCleanDisk (state S.Store connection.new) → HaveOwnRowids (state S.Store connection.old).now
        → IfOk result (IsAuditOf (state S.Store connection.old).now) }
    ensures every { all ≡ true → HasCleanDisk (state S.Store connection.new)
        → IfOk result (TellsAll (state S.Store connection.old).now) }
    ensures gives_up { IfErr result (λ fault. fault ≡ F20) }
    ensures mode { connection.new.in_transaction ≡ false }
{
    if has_no_tables(connection.schema()) {
        return Ok(Audit::NoTables);
    }
    let Some(version) = version_of(connection.schema()) else {
        return Ok(Audit::OtherTables);
    };
    audit_known(alloc, connection, version, all, progress)
}
