//! Tables against the play of their journal.

ghost use Rattle.std.specs.Prelude.{◌≡◌, List, Some, false, IsTrue, IsSome, OnOk, IfOk, IfErr};
ghost use Rattle.mf_base.specs.declared.fault.Fault.TheVariants.{F20};
ghost use Rattle.sqlite.specs.Files.{over_files};
ghost use Rattle.sqlite.specs.Held.{state};
ghost use Rattle.sqlite.specs.State.{HasCleanDisk};
ghost use Rattle.mf_model.specs.Institution.{Institution, JournalLine};
ghost use Rattle.mf_store.specs.Stands.{StandsFor};
ghost use Rattle.mf_store_schema.specs.Schemas.{IsUnchangedUnder};
ghost use Rattle.mf_store_schema.specs.Writes.{HoldsAt};
ghost use Rattle.mf_store_schema.specs.declared.versions.Version.TheVariants.{Third};
ghost use Rattle.mf_store_sound.specs.Schemas.{tables_at};
ghost use Rattle.mf_store_journal.specs.Reading.{IsThird};
ghost use Rattle.mf_store_journal.specs.Rows.{head_with_all};
ghost use Rattle.mf_store_journal.specs.Written.{KeepsJournalFrom};
ghost use Rattle.mf_store_sound.specs.Held.{HoldsSoundAt};
ghost use Rattle.mf_store_played.specs.Played.{IsFounding};
ghost use Rattle.mf_store_played.specs.Answer.{IsCompared, IsAnswer, IsAnswerOf, IsAnswerOver, HoldsPlayable};

use crate::differing::first_differing;
use crate::founding::{found_in_memory, founding_day};
use crate::pages::play_pages;
use crate::played::{Difference, Played};
use mf_base::{Day, Fault};
use mf_journal::Head;
use mf_store::Store;
use mf_store_journal::{Journal, read_journal};
use mf_store_schema::{Unfollowed, Version};
use mf_store_sound::{Tables, read_tables};
use mf_store_sql::pages::PageStore;
use mf_store_told::narrow;
use mf_wire_requests::Routes;
use sqlite::{Alter, Connection};
use std::alloc::Global;

/// The rows of the institution with a journal that a store in memory stands for. The error is F20.
fn rows_in_memory(alloc: Global, store: Store<PageStore>) -> Result<Tables, Fault>
    ensures rows { IfOk result (λ tables. (i : Institution) → StandsFor over_files store i → IsSome i.journal
        → tables ≡ tables_at Third i) }
    ensures gives_up { IfErr result (λ fault. fault ≡ F20) }
{
    let mut connection = store.release();
    match read_tables(alloc, &mut connection, Version::Third, &mut Unfollowed) {
        Ok(Some(tables)) => Ok(tables),
        Ok(None) => Err(Fault::F20),
        Err(fault) => Err(fault),
    }
}

/// The answer for both sides' rows, after all lines were played.
fn compared(head: Head, here: Tables, played: Tables) -> Played
    ensures { IsCompared head here played result }
{
    match first_differing(&here, &played) {
        Some((table, row)) => Played::Differs(Difference {
            table,
            row,
            here,
            played,
        }),
        None => Played::Leads(head),
    }
}

/// The answer for the tables of a connection, held against what a store in memory stands for. The error is F20.
fn compare_rows<S: Alter>(
    alloc: Global,
    connection: &mut Connection<S>,
    store: Store<PageStore>,
    head: Head,
) -> Result<Played, Fault>
    requires alone { connection.old.in_transaction ≡ false }
    ensures kept { IsUnchangedUnder IsThird (state S.Store connection.old) (state S.Store connection.new) }
    ensures gives_up { IfErr result (λ fault. fault ≡ F20) }
    ensures open { HasCleanDisk (state S.Store connection.new)
        → OnOk result (IsTrue (state S.Store connection.new).is_open) }
    ensures answer { HasCleanDisk (state S.Store connection.new) → IsThird (state S.Store connection.old).now.schema
        → (i j : Institution) → HoldsAt Third (state S.Store connection.old).now.trees (tables_at Third i)
        → StandsFor over_files store j → IsSome j.journal
        → IfOk result (IsCompared head (tables_at Third i) (tables_at Third j)) }
    ensures mode { connection.new.in_transaction ≡ false }
{
    let found = match read_tables(alloc, connection, Version::Third, &mut Unfollowed) {
        Ok(Some(found)) => found,
        Ok(None) => return Err(Fault::F20),
        Err(fault) => return Err(fault),
    };
    match rows_in_memory(alloc, store) {
        Ok(played) => Ok(compared(head, found, played)),
        Err(fault) => Err(fault),
    }
}

/// The answer for the tables beside a journal, whose lines are played over a store in memory: it stands for what the
/// lines are to be played over.
pub(crate) fn play_over<S: Alter>(
    alloc: Global,
    connection: &mut Connection<S>,
    mut store: Store<PageStore>,
    journal: Journal,
) -> Result<Played, Fault>
    requires alone { connection.old.in_transaction ≡ false }
    ensures kept { IsUnchangedUnder IsThird (state S.Store connection.old) (state S.Store connection.new) }
    ensures gives_up { IfErr result (λ fault. fault ≡ F20) }
    ensures open { HasCleanDisk (state S.Store connection.new)
        → OnOk result (IsTrue (state S.Store connection.new).is_open) }
    ensures answer { HasCleanDisk (state S.Store connection.new) → IsThird (state S.Store connection.old).now.schema
        → (start i : Institution) (before lines : List JournalLine) → StandsFor over_files store start
        → start.journal ≡ Some before → HoldsPlayable i before journal (state S.Store connection.old).now.trees lines
        → IfOk result (IsAnswerOver start journal.begins lines i) }
    ensures mode { connection.new.in_transaction ≡ false }
{
    mf_store::laws::one_institution();
    let after = narrow(journal.begins.number)?;
    let Ok(routes) = Routes::new(alloc) else {
        return Err(Fault::F20);
    };
    match play_pages(alloc, &routes, connection, &mut store, after) {
        Ok(Ok(())) => compare_rows(alloc, connection, store, journal.head),
        Ok(Err((number, why))) => Ok(Played::Stops { number, why }),
        Err(fault) => Err(fault),
    }
}

/// The answer for the tables beside a journal that begins at the founding on this day.
fn play_from<S: Alter>(
    alloc: Global,
    connection: &mut Connection<S>,
    journal: Journal,
    day: Day,
) -> Result<Played, Fault>
    requires alone { connection.old.in_transaction ≡ false }
    requires founds { IsFounding journal.begins day }
    ensures kept { IsUnchangedUnder IsThird (state S.Store connection.old) (state S.Store connection.new) }
    ensures gives_up { IfErr result (λ fault. fault ≡ F20) }
    ensures open { HasCleanDisk (state S.Store connection.new)
        → OnOk result (IsTrue (state S.Store connection.new).is_open) }
    ensures answer { HasCleanDisk (state S.Store connection.new) → IsThird (state S.Store connection.old).now.schema
        → (held : HoldsSoundAt Third (state S.Store connection.old).now.trees) (lines : List JournalLine)
        → held.institution.journal ≡ Some lines
        → KeepsJournalFrom journal.begins (state S.Store connection.old).now.trees lines
        → journal.head ≡ head_with_all journal.begins lines
        → IfOk result (IsAnswer journal.begins lines held.institution) }
    ensures mode { connection.new.in_transaction ≡ false }
{
    let store = found_in_memory(alloc, day)?;
    play_over(alloc, connection, store, journal)
}

/// The answer for the tables beside a journal.
fn play_journal<S: Alter>(
    alloc: Global,
    connection: &mut Connection<S>,
    journal: Journal,
) -> Result<Played, Fault>
    requires alone { connection.old.in_transaction ≡ false }
    ensures kept { IsUnchangedUnder IsThird (state S.Store connection.old) (state S.Store connection.new) }
    ensures gives_up { IfErr result (λ fault. fault ≡ F20) }
    ensures open { HasCleanDisk (state S.Store connection.new) → IsTrue (state S.Store connection.old).is_open
        → OnOk result (IsTrue (state S.Store connection.new).is_open) }
    ensures answer { HasCleanDisk (state S.Store connection.new) → IsThird (state S.Store connection.old).now.schema
        → (held : HoldsSoundAt Third (state S.Store connection.old).now.trees) (lines : List JournalLine)
        → held.institution.journal ≡ Some lines
        → KeepsJournalFrom journal.begins (state S.Store connection.old).now.trees lines
        → journal.head ≡ head_with_all journal.begins lines
        → IfOk result (IsAnswer journal.begins lines held.institution) }
    ensures mode { connection.new.in_transaction ≡ false }
{
    match founding_day(journal.begins) {
        Ok(Some(day)) => play_from(alloc, connection, journal, day),
        Ok(None) => Ok(Played::NoFounding(journal.head)),
        Err(fault) => Err(fault),
    }
}

/// What the play of a journal says of the tables beside it: whether its lines, played from the founding at which it
/// begins, lead to just their rows; else the first line that doesn't play, or the first table and row that differ. It
/// plays in memory and changes nothing. The error is F20.
///
/// The answer speaks of tables of the third version that hold a sound institution with its journal. It is F20 too where
/// no journal can be read, which no such tables have.
pub fn play_tables<S: Alter>(alloc: Global, connection: &mut Connection<S>) -> Result<Played, Fault>
    requires alone { connection.old.in_transaction ≡ false }
    ensures kept { IsUnchangedUnder IsThird (state S.Store connection.old) (state S.Store connection.new) }
    ensures gives_up { IfErr result (λ fault. fault ≡ F20) }
    ensures open { HasCleanDisk (state S.Store connection.new)
        → OnOk result (IsTrue (state S.Store connection.new).is_open) }
    ensures answer { HasCleanDisk (state S.Store connection.new) → IsThird (state S.Store connection.old).now.schema
        → IfOk result (IsAnswerOf (state S.Store connection.old).now.trees) }
    ensures mode { connection.new.in_transaction ≡ false }
{
    match read_journal(connection) {
        Ok(Some(journal)) => play_journal(alloc, connection, journal),
        Ok(None) => Err(Fault::F20),
        Err(fault) => Err(fault),
    }
}
