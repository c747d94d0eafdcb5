//! An archive, read from its file's table.

ghost use Rattle.std.specs.Prelude.{◌≡◌, ◌↔◌, List, false, IsTrue, IfOk, IfErr};
ghost use Rattle.mf_base.specs.declared.fault.Fault.TheVariants.{F20};
ghost use Rattle.sqlite.specs.Held.{state};
ghost use Rattle.sqlite.specs.State.{HasCleanDisk};
ghost use Rattle.mf_journal.specs.declared.following.Head.{Head};
ghost use Rattle.mf_model.specs.Institution.{JournalLine};
ghost use Rattle.mf_store_schema.specs.Tables.{journal};
ghost use Rattle.mf_store_archived.specs.Archives.{IsPart};
ghost use Rattle.mf_store_archived.specs.Reading.{HasOneTable, KeepsPart, all_text};

use crate::archive::Archive;
use crate::checking::{Unread, archive_of};
use mf_base::Fault;
use mf_store_sql::query;
use sqlite::{Alter, Connection};
use sqlite_schema::schema::Schema;

fn all_text() -> &'static str
    ensures { result.now ≡ all_text journal }
{
    "SELECT number, day, office, staff, told, method, path, body, named_office, named_loan, chain \
     FROM journal ORDER BY number"
}

/// Whether a schema has one table, and no index and no view.
fn has_one_table(found: &Schema) -> bool
    ensures { IsTrue result ↔ HasOneTable found.now }
{
    found.tables.len() == 1 && found.indexes.is_empty() && found.views.is_empty()
}

/// The archive whose table a connection shows, with all its lines; else why none is made of it. `Failed` is F20: out of
/// memory, a failure of the disk, or rows that can't be asked for.
pub fn read_archive<S: Alter>(connection: &mut Connection<S>) -> Result<Archive, Unread>
    requires alone { connection.old.in_transaction ≡ false }

    // Whatever stands there, the lines are those of a journal.
    ensures whole { IfOk result (λ archive. (lines : List JournalLine) × IsPart archive lines) }

    // Of an archive they are those that it keeps, and nothing but F20 is told in place of them.
    ensures only { HasCleanDisk (state S.Store connection.new) → (begins : Head) (lines : List JournalLine)
        → KeepsPart begins lines (state S.Store connection.old).now
        → IfOk result (λ archive. (archive.begins ≡ begins) × IsPart archive lines) }
    ensures gives_up { HasCleanDisk (state S.Store connection.new) → (begins : Head) (lines : List JournalLine)
        → KeepsPart begins lines (state S.Store connection.old).now
        → IfErr result (λ unread. unread ≡ Unread.Failed F20) }
{
    if !has_one_table(connection.schema()) {
        return Err(Unread::NoArchive);
    }
    match query(connection, all_text(), &[]) {
        Ok(rows) => archive_of(rows),
        Err(_) => Err(Unread::Failed(Fault::F20)),
    }
}
