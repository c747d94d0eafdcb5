//! Tables against the play of a journal that was begun over rows, from a copy of these.

ghost use Rattle.std.specs.Prelude.{◌≡◌, ◌≢◌, ◌↔◌, [], List, None, Some, false, IsTrue, OnOk};
ghost use Rattle.std.specs.Prelude.{IfOk, IfErr, IfSome, IfNone};
ghost use Rattle.mf_base.specs.declared.fault.Fault.TheVariants.{F20};
ghost use Rattle.sqlite.specs.Files.{over_files};
ghost use Rattle.sqlite.specs.Held.{state};
ghost use Rattle.sqlite.specs.State.{HasCleanDisk};
ghost use Rattle.mf_model.specs.Institution.{Institution, JournalLine};
ghost use Rattle.mf_store.specs.Stands.{StandsFor};
ghost use Rattle.mf_store_schema.specs.Schemas.{IsUnchangedUnder};
ghost use Rattle.mf_store_journal.specs.Reading.{IsThird};
ghost use Rattle.mf_store_played.specs.Answer.{IsBegunOver, IsCopyAnswer, IsCopyAnswerOf, HoldsPlayable};

use crate::played::Played;
use crate::playing::play_over;
use mf_base::Fault;
use mf_journal::Head;
use mf_store::Store;
use mf_store_journal::{Journal, read_journal};
use mf_store_sql::pages::PageStore;
use sqlite::{Alter, Connection};
use std::alloc::Global;

/// Whether a journal begins here.
pub fn is_at(begins: Option<Head>, other: Head) -> bool
    ensures { IsTrue result ↔ (begins ≡ Some other) }
{
    match begins {
        Some(head) => {
            head.number == other.number && head.day == other.day && head.chain == other.chain
        }
        None => false,
    }
}

/// A copy in memory with the journal that would be begun over its rows; none where the copy keeps a journal already.
/// The error is F20.
pub fn begun_over(
    alloc: Global,
    mut copy: Store<PageStore>,
) -> Result<Option<Store<PageStore>>, Fault>
    ensures begun { IfOk result (λ x. IfSome x (λ store. (copied : Institution) → StandsFor over_files copy copied
        → IsBegunOver copied store)) }
    ensures none { IfOk result (λ x. IfNone x ((copied : Institution) → StandsFor over_files copy copied
        → copied.journal ≢ None)) }
    ensures gives_up { IfErr result (λ fault. fault ≡ F20) }
{
    if copy.keeps_journal() {
        return Ok(None);
    }
    match copy.begin_journal(alloc) {
        Ok(()) => Ok(Some(copy)),
        Err(fault) => Err(fault),
    }
}

/// The answer for the tables beside a journal, from a copy that got the journal which would be begun over it.
fn play_begun<S: Alter>(
    alloc: Global,
    connection: &mut Connection<S>,
    store: Store<PageStore>,
    journal: Journal,
) -> Result<Played, Fault>
    requires alone { connection.old.in_transaction ≡ false }
    ensures kept { IsUnchangedUnder IsThird (state S.Store connection.old) (state S.Store connection.new) }
    ensures gives_up { IfErr result (λ fault. fault ≡ F20) }
    ensures open { HasCleanDisk (state S.Store connection.new) → IsTrue (state S.Store connection.old).is_open
        → OnOk result (IsTrue (state S.Store connection.new).is_open) }
    ensures answer { HasCleanDisk (state S.Store connection.new) → IsThird (state S.Store connection.old).now.schema
        → (copied i : Institution) (lines : List JournalLine) → IsBegunOver copied store
        → HoldsPlayable i [] journal (state S.Store connection.old).now.trees lines
        → IfOk result (IsCopyAnswer copied journal.begins lines i) }
    ensures mode { connection.new.in_transaction ≡ false }
{
    if is_at(store.journal_begins(), journal.begins) {
        return play_over(alloc, connection, store, journal);
    }
    Ok(Played::OtherCopy(journal.head))
}

/// The answer for the tables beside a journal, from a copy.
fn play_copied<S: Alter>(
    alloc: Global,
    connection: &mut Connection<S>,
    copy: Store<PageStore>,
    journal: Journal,
) -> Result<Played, Fault>
    requires alone { connection.old.in_transaction ≡ false }
    ensures kept { IsUnchangedUnder IsThird (state S.Store connection.old) (state S.Store connection.new) }
    ensures gives_up { IfErr result (λ fault. fault ≡ F20) }
    ensures open { HasCleanDisk (state S.Store connection.new) → IsTrue (state S.Store connection.old).is_open
        → OnOk result (IsTrue (state S.Store connection.new).is_open) }
    ensures answer { HasCleanDisk (state S.Store connection.new) → IsThird (state S.Store connection.old).now.schema
        → (copied i : Institution) (lines : List JournalLine) → StandsFor over_files copy copied
        → HoldsPlayable i [] journal (state S.Store connection.old).now.trees lines
        → IfOk result (IsCopyAnswer copied journal.begins lines i) }
    ensures mode { connection.new.in_transaction ≡ false }
{
    match begun_over(alloc, copy) {
        Ok(Some(store)) => play_begun(alloc, connection, store, journal),
        Ok(None) => Ok(Played::OtherCopy(journal.head)),
        Err(fault) => Err(fault),
    }
}

/// What the play of a journal says of the tables beside it, where it was begun over rows: whether its lines, played
/// from a copy of these, lead to just the tables' rows; else that it was begun over others than the copy's, or the
/// first line that doesn't play, or the first table and row that differ. It plays in memory, over the copy, and changes
/// nothing else. The error is F20.
///
/// The answer speaks of tables of the third version that hold a sound institution with its journal, and of a copy that
/// stands for an institution, which keeps no journal where it is the one over which the journal was begun.
pub fn play_tables_from<S: Alter>(
    alloc: Global,
    connection: &mut Connection<S>,
    copy: Store<PageStore>,
) -> Result<Played, Fault>
    requires alone { connection.old.in_transaction ≡ false }
    ensures kept { IsUnchangedUnder IsThird (state S.Store connection.old) (state S.Store connection.new) }
    ensures gives_up { IfErr result (λ fault. fault ≡ F20) }
    ensures open { HasCleanDisk (state S.Store connection.new)
        → OnOk result (IsTrue (state S.Store connection.new).is_open) }
    ensures answer { HasCleanDisk (state S.Store connection.new) → IsThird (state S.Store connection.old).now.schema
        → (copied : Institution) → StandsFor over_files copy copied
        → IfOk result (IsCopyAnswerOf copied (state S.Store connection.old).now.trees) }
    ensures mode { connection.new.in_transaction ≡ false }
{
    match read_journal(connection) {
        Ok(Some(journal)) => play_copied(alloc, connection, copy, journal),
        Ok(None) => Err(Fault::F20),
        Err(fault) => Err(fault),
    }
}
