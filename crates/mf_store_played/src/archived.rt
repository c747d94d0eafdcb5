//! Tables against the play of a journal whose first lines were moved to archives.

ghost use Rattle.std.specs.Prelude.{◌≡◌, ◌<◌, ◌↔◌, ◌++◌, List, map, length, slice_get, Some, false, IsTrue, OnOk};
ghost use Rattle.std.specs.Prelude.{IfOk, IfErr};
ghost use Rattle.mf_base.specs.declared.fault.Fault.TheVariants.{F20};
ghost use Rattle.sqlite.specs.Held.{state};
ghost use Rattle.sqlite.specs.State.{HasCleanDisk};
ghost use Rattle.mf_model.specs.Institution.{JournalLine};
ghost use Rattle.mf_store_schema.specs.Schemas.{IsUnchangedUnder};
ghost use Rattle.mf_store_schema.specs.declared.versions.Version.TheVariants.{Third};
ghost use Rattle.mf_store_sound.specs.Held.{HoldsSoundAt};
ghost use Rattle.mf_store_journal.specs.Reading.{IsThird};
ghost use Rattle.mf_store_sql.specs.Numbered.{shown_filed};
ghost use Rattle.mf_store_journal.specs.Rows.{filed_after, head_with_all};
ghost use Rattle.mf_store_journal.specs.Written.{KeepsJournalFrom};
ghost use Rattle.mf_store_archive.specs.Archived.{with_lines};
ghost use Rattle.mf_store_archived.specs.Archives.{IsPart};
ghost use Rattle.mf_store_archived.specs.Joining.{AreArchives, LeadsOn};
ghost use Rattle.mf_store_archived.specs.declared.archive.Archive.{Archive};
ghost use Rattle.mf_store_played.specs.Answer.{IsAnswer};
ghost use Rattle.mf_store_played.specs.Archived.{IsAnswerFrom, IsArchivedAnswer, IsArchivedAnswerOf};
ghost use Rattle.mf_store_played.specs.Archived.{PlaysArchive, PlaysArchives};
ghost use Rattle.mf_store_played.specs.Played.{IsFounding};

use crate::founding::{found_in_memory, founding_day};
use crate::pages::play_page;
use crate::played::Played;
use crate::playing::play_over;
use mf_base::{Day, Fault};
use mf_journal::Head;
use mf_model::InstitutionStore;
use mf_play::Stop;
use mf_store_archived::{Archive, Joined, gap_before, join};
use mf_store_journal::{Journal, read_journal};
use mf_store_told::{narrow, number_at};
use mf_wire_requests::Routes;
use sqlite::{Alter, Connection, Row};
use std::alloc::Global;

/// The rows of an archive's lines, without that of where it begins.
fn rows_of_lines(archive: &Archive) -> &[Row]
    ensures { (lines : List JournalLine) → IsPart archive.now lines
        → result.now ≡ map shown_filed (filed_after archive.now.begins lines) }
{
    match archive.rows.as_slice() {
        [] => &[],
        [_, rows @ ..] => rows,
    }
}

/// Plays the lines of an archive, until one doesn't play. It says that line's number, and why. The error is F20.
fn play_archive<T: InstitutionStore>(
    alloc: Global,
    routes: &Routes,
    store: &mut T,
    archive: &Archive,
) -> Result<Result<(), (u64, Stop)>, Fault>
    ensures premise { T.clean store.new → T.clean store.old }
    ensures plays { PlaysArchive T.InstitutionStore archive.now store.old store.new result }
    ensures gives_up { IfErr result (λ fault. fault ≡ F20) }
{
    let begins = narrow(archive.begins.number)?;
    match play_page(alloc, routes, store, rows_of_lines(archive)) {
        Ok(Ok(())) => Ok(Ok(())),
        Ok(Err((place, why))) => {
            let number = number_at(begins, place)?;
            Ok(Err((number, why)))
        }
        Err(fault) => Err(fault),
    }
}

/// Plays the lines of the archive at a place. F20 where there is none.
fn play_at<T: InstitutionStore>(
    alloc: Global,
    routes: &Routes,
    store: &mut T,
    archives: &[Archive],
    place: usize,
) -> Result<Result<(), (u64, Stop)>, Fault>
    ensures premise { T.clean store.new → T.clean store.old }
    ensures plays { (a : Archive) → slice_get archives.now place ≡ Some a
        → PlaysArchive T.InstitutionStore a store.old store.new result }
    ensures gives_up { IfErr result (λ fault. fault ≡ F20) }
{
    if place >= archives.len() {
        return Err(Fault::F20);
    }
    play_archive(alloc, routes, store, &archives[place])
}

/// The one of these places that comes at a turn.
fn place_at(places: &[usize], k: usize) -> usize
    requires { k < length places.now }
    ensures { slice_get places.now k ≡ Some result }
{
    places[k]
}

/// Plays the lines of the archives at these places, one after the other, until one doesn't play. It says that line's
/// number, and why. The error is F20.
fn play_archives<T: InstitutionStore>(
    alloc: Global,
    routes: &Routes,
    store: &mut T,
    archives: &[Archive],
    places: &[usize],
) -> Result<Result<(), (u64, Stop)>, Fault>
    ensures premise { T.clean store.new → T.clean store.old }
    ensures plays { PlaysArchives T.InstitutionStore archives.now places.now store.old store.new result }
    ensures gives_up { IfErr result (λ fault. fault ≡ F20) }
{
    for k in 0..places.len() {
        match play_at(alloc, routes, store, archives, place_at(places, k)) {
            Ok(Ok(())) => {}
            Ok(Err((number, why))) => return Ok(Err((number, why))),
            Err(fault) => return Err(fault),
        }
    }
    Ok(Ok(()))
}

/// The answer for the tables beside a journal to which archives lead from the founding on this day.
fn play_joined<S: Alter>(
    alloc: Global,
    connection: &mut Connection<S>,
    archives: &[Archive],
    joined: &Joined,
    journal: Journal,
    day: Day,
) -> Result<Played, Fault>
    requires alone { connection.old.in_transaction ≡ false }
    requires founds { IsFounding joined.now.begins day }
    ensures kept { IsUnchangedUnder IsThird (state S.Store connection.old) (state S.Store connection.new) }
    ensures gives_up { IfErr result (λ fault. fault ≡ F20) }
    ensures open { HasCleanDisk (state S.Store connection.new) → IsTrue (state S.Store connection.old).is_open
        → OnOk result (IsTrue (state S.Store connection.new).is_open) }
    ensures answer { HasCleanDisk (state S.Store connection.new) → IsThird (state S.Store connection.old).now.schema
        → (held : HoldsSoundAt Third (state S.Store connection.old).now.trees) (before lines : List JournalLine)
        → held.institution.journal ≡ Some lines
        → KeepsJournalFrom journal.begins (state S.Store connection.old).now.trees lines
        → journal.head ≡ head_with_all journal.begins lines
        → LeadsOn archives.now joined.now.begins joined.now.places.items journal.begins before
        → IfOk result (IsAnswer joined.now.begins (before ++ lines) (with_lines (before ++ lines) held.institution)) }
    ensures mode { connection.new.in_transaction ≡ false }
{
    let mut store = found_in_memory(alloc, day)?;
    let Ok(routes) = Routes::new(alloc) else {
        return Err(Fault::F20);
    };
    match play_archives(alloc, &routes, &mut store, archives, &joined.places) {
        Ok(Ok(())) => play_over(alloc, connection, store, journal),
        Ok(Err((number, why))) => Ok(Played::Stops { number, why }),
        Err(fault) => Err(fault),
    }
}

/// Whether no line stands before a head.
fn is_before_all(head: Head) -> bool
    ensures { IsTrue result ↔ (head.number ≡ 0) }
{
    head.number == 0
}

/// The answer for the tables beside a journal, by the archives that lead to where it begins.
fn play_over_joined<S: Alter>(
    alloc: Global,
    connection: &mut Connection<S>,
    archives: &[Archive],
    joined: &Joined,
    journal: Journal,
) -> Result<Played, Fault>
    requires alone { connection.old.in_transaction ≡ false }
    ensures kept { IsUnchangedUnder IsThird (state S.Store connection.old) (state S.Store connection.new) }
    ensures gives_up { IfErr result (λ fault. fault ≡ F20) }
    ensures open { HasCleanDisk (state S.Store connection.new) → IsTrue (state S.Store connection.old).is_open
        → OnOk result (IsTrue (state S.Store connection.new).is_open) }
    ensures answer { HasCleanDisk (state S.Store connection.new) → IsThird (state S.Store connection.old).now.schema
        → (held : HoldsSoundAt Third (state S.Store connection.old).now.trees) (before lines : List JournalLine)
        → held.institution.journal ≡ Some lines
        → KeepsJournalFrom journal.begins (state S.Store connection.old).now.trees lines
        → journal.head ≡ head_with_all journal.begins lines
        → LeadsOn archives.now joined.now.begins joined.now.places.items journal.begins before
        → IfOk result (IsAnswerFrom archives.now joined.now.begins (before ++ lines) held.institution) }
    ensures mode { connection.new.in_transaction ≡ false }
{
    if !is_before_all(joined.begins) {
        return Ok(Played::Lacks(gap_before(archives, joined.begins)));
    }
    match founding_day(joined.begins) {
        Ok(Some(day)) => play_joined(alloc, connection, archives, joined, journal, day),
        Ok(None) => Ok(Played::NoFounding(journal.head)),
        Err(fault) => Err(fault),
    }
}

/// The answer for the tables beside a journal, by all archives.
fn play_archived<S: Alter>(
    alloc: Global,
    connection: &mut Connection<S>,
    archives: &[Archive],
    journal: Journal,
) -> Result<Played, Fault>
    requires alone { connection.old.in_transaction ≡ false }
    ensures kept { IsUnchangedUnder IsThird (state S.Store connection.old) (state S.Store connection.new) }
    ensures gives_up { IfErr result (λ fault. fault ≡ F20) }
    ensures open { HasCleanDisk (state S.Store connection.new) → IsTrue (state S.Store connection.old).is_open
        → OnOk result (IsTrue (state S.Store connection.new).is_open) }
    ensures answer { HasCleanDisk (state S.Store connection.new) → IsThird (state S.Store connection.old).now.schema
        → AreArchives archives.now
        → (held : HoldsSoundAt Third (state S.Store connection.old).now.trees) (lines : List JournalLine)
        → held.institution.journal ≡ Some lines
        → KeepsJournalFrom journal.begins (state S.Store connection.old).now.trees lines
        → journal.head ≡ head_with_all journal.begins lines
        → IfOk result (IsArchivedAnswer archives.now journal.begins lines held.institution) }
    ensures mode { connection.new.in_transaction ≡ false }
{
    let joined = join(alloc, archives, journal.begins)?;
    play_over_joined(alloc, connection, archives, &joined, journal)
}

/// What the play of a journal says of the tables beside it, where its first lines were moved to archives: whether the
/// lines of the archives that lead to where it begins, and then its own, lead from their founding to just the tables'
/// rows; else where archives are missing, or the first line that doesn't play, or the first table and row that differ.
/// It plays in memory and changes nothing. The error is F20.
///
/// The answer speaks of tables of the third version that hold a sound institution with its journal, and of archives
/// that were read whole.
pub fn play_tables_over_archives<S: Alter>(
    alloc: Global,
    connection: &mut Connection<S>,
    archives: &[Archive],
) -> Result<Played, Fault>
    requires alone { connection.old.in_transaction ≡ false }
    ensures kept { IsUnchangedUnder IsThird (state S.Store connection.old) (state S.Store connection.new) }
    ensures gives_up { IfErr result (λ fault. fault ≡ F20) }
    ensures open { HasCleanDisk (state S.Store connection.new)
        → OnOk result (IsTrue (state S.Store connection.new).is_open) }
    ensures answer { HasCleanDisk (state S.Store connection.new) → IsThird (state S.Store connection.old).now.schema
        → AreArchives archives.now
        → IfOk result (IsArchivedAnswerOf archives.now (state S.Store connection.old).now.trees) }
    ensures mode { connection.new.in_transaction ≡ false }
{
    match read_journal(connection) {
        Ok(Some(journal)) => play_archived(alloc, connection, archives, journal),
        Ok(None) => Err(Fault::F20),
        Err(fault) => Err(fault),
    }
}
