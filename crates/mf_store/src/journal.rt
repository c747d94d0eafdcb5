//! Whether a journal is kept, what it tells, and a journal that begins.

ghost use Rattle.std.specs.Prelude.{◌≡◌, ◌↔◌, None, Some, IsSome, IsTrue, List, false, OnOk, IfOk, IfErr};
ghost use Rattle.mf_base.specs.declared.fault.Fault.TheVariants.{F20};
ghost use Rattle.sqlite.specs.Held.{state};
ghost use Rattle.sqlite.specs.State.{HasCleanDisk};
ghost use Rattle.mf_journal.specs.declared.following.Head.{Head};
ghost use Rattle.mf_model.specs.Institution.{Institution, JournalLine};
ghost use Rattle.mf_store_journal.specs.Reading.{IsKeeping, first_above, page_above};
ghost use Rattle.mf_store_journal.specs.Rows.{journal_rows_in};
ghost use Rattle.mf_store_noted.specs.Kept.{begins_of};
ghost use Rattle.mf_store_schema.specs.Calls.{IsAsBefore};
ghost use Rattle.mf_store_sql.specs.Numbered.{Filed};
ghost use Rattle.mf_store.specs.Beginning.{BeginsJournal};
ghost use Rattle.mf_store.specs.Stands.{StandsFor, IsClean, AsksTables};

use crate::store::Store;
use mf_base::Fault;
use mf_store_journal::first_rows_after;
use mf_store_schema::{Version, version_of};
use sqlite::{Alter, Connection, Row};
use std::alloc::Global;

/// How many rows are read at a time.
const PAGE: u32 = 1_000;

/// The first rows of the journal's table above a number, the lowest first, and no more than so many. F20 where the
/// tables keep no journal.
fn journal_rows_after<S: Alter>(
    connection: &mut Connection<S>,
    number: u32,
    most: u32,
) -> Result<Vec<Row>, Fault>
    requires alone { connection.old.in_transaction ≡ false }
    ensures kept { IsAsBefore (state S.Store connection.old) (state S.Store connection.new) }
    ensures gives_up { IfErr result (λ fault. fault ≡ F20) }
    ensures open { HasCleanDisk (state S.Store connection.new)
        → OnOk result (IsTrue (state S.Store connection.new).is_open) }
    ensures rows { HasCleanDisk (state S.Store connection.new) → (lines : List Filed)
        → IsKeeping (state S.Store connection.old) lines
        → IfOk result (λ rows. rows.items ≡ first_above most number lines) }
    ensures mode { connection.new.in_transaction ≡ false }
{
    match version_of(connection.schema()) {
        Some(Version::Third) => first_rows_after(connection, number, most),
        _ => Err(Fault::F20),
    }
}

impl<S: Alter> Store<S> {
    /// Gives the institution a journal that has no line yet, in one commit. It begins on the business day, at the
    /// digest of all rows. Where the store keeps a journal, nothing is done. The error is F20.
    pub fn begin_journal(&mut self, alloc: Global) -> Result<(), Fault>
        ensures { BeginsJournal S.Store self.old self.new result }
    {
        if self.keeps_journal() {
            return Ok(());
        }
        self.begin_upgraded(alloc)
    }

    /// The first rows of the journal above a number, the lowest first, and no more than so many: first where it begins,
    /// then its lines. F20 where no journal is kept.
    pub(crate) fn first_journal_rows(&mut self, number: u32, most: u32) -> Result<Vec<Row>, Fault>
        ensures asks { AsksTables S.Store self.old self.new result }
        ensures rows { IsClean S.Store self.new → (i : Institution) (begins : Head) (lines : List JournalLine)
            → StandsFor S.Store self.old i → begins_of self.old.journal ≡ Some begins → i.journal ≡ Some lines
            → IfOk result (λ rows. rows.items ≡ first_above most number (journal_rows_in begins (Some lines))) }
        ensures known { self.new.known ≡ self.old.known }
    {
        journal_rows_after(&mut self.connection, number, most)
    }

    /// The rows of the journal above a number, the lowest first, and no more than 1,000.
    pub fn journal_rows(&mut self, number: u32) -> Result<Vec<Row>, Fault>
        ensures asks { AsksTables S.Store self.old self.new result }
        ensures rows { IsClean S.Store self.new → (i : Institution) (begins : Head) (lines : List JournalLine)
            → StandsFor S.Store self.old i → begins_of self.old.journal ≡ Some begins → i.journal ≡ Some lines
            → IfOk result (λ rows. rows.items ≡ page_above number (journal_rows_in begins (Some lines))) }
        ensures known { self.new.known ≡ self.old.known }
    {
        self.first_journal_rows(number, PAGE)
    }
}
