//! The journal that is found in a table, where each of its lines tells a request.

ghost use Rattle.std.specs.Prelude.{◌≡◌, List, false, IsTrue, OnOk, IfOk, IfErr, IfSome, IfNone};
ghost use Rattle.mf_base.specs.declared.fault.Fault.TheVariants.{F20};
ghost use Rattle.sqlite.specs.State.{HasCleanDisk};
ghost use Rattle.sqlite.specs.Held.{state};
ghost use Rattle.mf_model.specs.Institution.{JournalLine};
ghost use Rattle.mf_store_schema.specs.Schemas.{IsUnchangedUnder};
ghost use Rattle.mf_store_schema.specs.Whole.{HaveRowids};
ghost use Rattle.mf_store_schema.specs.declared.versions.Version.TheVariants.{Third};
ghost use Rattle.mf_journal.specs.declared.following.Head.{Head};
ghost use Rattle.mf_play.specs.Play.{AllTellRequests};
ghost use Rattle.mf_store_journal.specs.Rows.{head_with_all};
ghost use Rattle.mf_store_journal.specs.Reading.{IsThird};
ghost use Rattle.mf_store_journal.specs.Written.{KeepsJournalFrom};
ghost use Rattle.mf_store_told.specs.Told.{KeepsTold};

use crate::pages::first_untold_line;
use mf_base::Fault;
use mf_store_journal::{Journal, read_journal};
use sqlite::{Alter, Connection};
use std::alloc::Global;

/// The journal, where each of its lines tells a request; none where one tells none.
fn if_told<S: Alter>(
    alloc: Global,
    connection: &mut Connection<S>,
    journal: Journal,
) -> Result<Option<Journal>, Fault>
    requires alone { connection.old.in_transaction ≡ false }
    ensures kept { IsUnchangedUnder IsThird (state S.Store connection.old) (state S.Store connection.new) }
    ensures gives_up { IfErr result (λ fault. fault ≡ F20) }
    ensures open { HasCleanDisk (state S.Store connection.new)
        → OnOk result (IsTrue (state S.Store connection.new).is_open) }
    ensures some { HasCleanDisk (state S.Store connection.new) → IsThird (state S.Store connection.old).now.schema
        → (lines : List JournalLine) → KeepsJournalFrom journal.begins (state S.Store connection.old).now.trees lines
        → IfOk result (λ x. IfSome x (λ found. AllTellRequests lines)) }
    ensures same { IfOk result (λ x. IfSome x (λ found. found ≡ journal)) }
    ensures none { HasCleanDisk (state S.Store connection.new) → IsThird (state S.Store connection.old).now.schema
        → (lines : List JournalLine) → KeepsJournalFrom journal.begins (state S.Store connection.old).now.trees lines
        → IfOk result (λ x. IfNone x (¬ AllTellRequests lines)) }
    ensures mode { connection.new.in_transaction ≡ false }
{
    match first_untold_line(alloc, connection, journal.begins) {
        Ok(None) => Ok(Some(journal)),
        Ok(Some(_)) => Ok(None),
        Err(fault) => Err(fault),
    }
}

/// Where the journal begins and stands that the table keeps, as `read_journal` finds it, where each of its lines tells
/// a request; none where the table keeps no such journal. It reads the rows twice, 1,000 at a time.
pub fn read_told_journal<S: Alter>(
    alloc: Global,
    connection: &mut Connection<S>,
) -> Result<Option<Journal>, Fault>
    requires alone { connection.old.in_transaction ≡ false }
    ensures kept { IsUnchangedUnder IsThird (state S.Store connection.old) (state S.Store connection.new) }
    ensures gives_up { IfErr result (λ fault. fault ≡ F20) }
    ensures open { HasCleanDisk (state S.Store connection.new)
        → OnOk result (IsTrue (state S.Store connection.new).is_open) }

    // The table keeps the journal, if its rowids are in order; and it keeps no other.
    ensures some { HasCleanDisk (state S.Store connection.new) → IsThird (state S.Store connection.old).now.schema
        → HaveRowids Third (state S.Store connection.old).now.trees
        → IfOk result (λ x. IfSome x (λ journal. KeepsTold journal (state S.Store connection.old).now.trees)) }
    ensures only { HasCleanDisk (state S.Store connection.new) → IsThird (state S.Store connection.old).now.schema
        → IfOk result (λ x. IfSome x (λ journal. (begins : Head) (lines : List JournalLine)
        → KeepsJournalFrom begins (state S.Store connection.old).now.trees lines
        → (journal.begins ≡ begins) × (journal.head ≡ head_with_all begins lines))) }
    ensures none { HasCleanDisk (state S.Store connection.new) → IsThird (state S.Store connection.old).now.schema
        → IfOk result (λ x. IfNone x ((begins : Head) (lines : List JournalLine)
        → KeepsJournalFrom begins (state S.Store connection.old).now.trees lines → ¬ AllTellRequests lines)) }
    ensures mode { connection.new.in_transaction ≡ false }
{
    match read_journal(connection) {
        Ok(Some(journal)) => if_told(alloc, connection, journal),
        Ok(None) => Ok(None),
        Err(fault) => Err(fault),
    }
}
