//! The journal that is found in a table, whatever a stranger wrote there.

ghost use Rattle.std.specs.Prelude.{◌≡◌, List, false, IsTrue, OnOk, IfOk, IfErr, IfSome, IfNone};
ghost use Rattle.mf_base.specs.declared.fault.Fault.TheVariants.{F20};
ghost use Rattle.sqlite.specs.State.{HasCleanDisk};
ghost use Rattle.sqlite.specs.Held.{state};
ghost use Rattle.mf_model.specs.Institution.{JournalLine};
ghost use Rattle.mf_store_schema.specs.Schemas.{IsUnchangedUnder};
ghost use Rattle.mf_store_schema.specs.Whole.{HaveRowids};
ghost use Rattle.mf_store_schema.specs.declared.versions.Version.TheVariants.{Third};
ghost use Rattle.mf_journal.specs.declared.following.Head.{Head};
ghost use Rattle.mf_store_journal.specs.Rows.{head_with_all};
ghost use Rattle.mf_store_journal.specs.Reading.{IsThird};
ghost use Rattle.mf_store_journal.specs.Written.{KeepsJournalFrom, KeepsTo};

use crate::checking::{Found, check_journal};
use crate::journal::Journal;
use mf_base::Fault;
use sqlite::{Alter, Connection};

/// Where the journal begins and stands that the table keeps, and none where it keeps none that the program can have
/// written: where it has no row, or one that breaks the journal's rules. It reads 1,000 rows at a time.
pub fn read_journal<S: Alter>(connection: &mut Connection<S>) -> Result<Option<Journal>, Fault>
    requires alone { connection.old.in_transaction ≡ false }
    ensures kept { IsUnchangedUnder IsThird (state S.Store connection.old) (state S.Store connection.new) }
    ensures gives_up { IfErr result (λ fault. fault ≡ F20) }
    ensures open { HasCleanDisk (state S.Store connection.new)
        → OnOk result (IsTrue (state S.Store connection.new).is_open) }

    // The table keeps the journal, if its rowids are in order; and it keeps no other.
    ensures some { HasCleanDisk (state S.Store connection.new) → IsThird (state S.Store connection.old).now.schema
        → HaveRowids Third (state S.Store connection.old).now.trees
        → IfOk result (λ x. IfSome x (λ journal. KeepsTo journal (state S.Store connection.old).now.trees)) }
    ensures only { HasCleanDisk (state S.Store connection.new) → IsThird (state S.Store connection.old).now.schema
        → IfOk result (λ x. IfSome x (λ journal. (begins : Head) (lines : List JournalLine)
        → KeepsJournalFrom begins (state S.Store connection.old).now.trees lines
        → (journal.begins ≡ begins) × (journal.head ≡ head_with_all begins lines))) }
    ensures none { HasCleanDisk (state S.Store connection.new) → IsThird (state S.Store connection.old).now.schema
        → IfOk result (λ x. IfNone x ((begins : Head) (lines : List JournalLine)
        → ¬ KeepsJournalFrom begins (state S.Store connection.old).now.trees lines)) }
    ensures mode { connection.new.in_transaction ≡ false }
{
    let _schema = connection.schema();
    match check_journal(connection)? {
        Found::Whole(journal) => Ok(Some(journal)),
        Found::Nothing | Found::NoBeginning | Found::Flawed(_) => Ok(None),
    }
}
