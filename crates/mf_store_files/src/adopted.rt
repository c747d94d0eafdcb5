//! Stores over the tables of a connection, whatever stands there.

ghost use Rattle.std.specs.Prelude.{◌≡◌, ◌≢◌, ◌≤◌, ◌⊎◌, ◌↔◌, ℕ, List, [], ◌∷◌, None, Some, false, IsTrue};
ghost use Rattle.std.specs.Prelude.{OnOk, IfOk, IfErr, IfSome, IsSome};
ghost use Rattle.mf_base.specs.declared.fault.Fault.{Fault};
ghost use Rattle.mf_base.specs.declared.fault.Fault.TheVariants.{F19, F20};
ghost use Rattle.mf_base.specs.DayText.{last_entered_day};
ghost use Rattle.sqlite.specs.Held.{state};
ghost use Rattle.sqlite.specs.State.{HasCleanDisk};
ghost use Rattle.mf_store_sql.specs.Tables.{no_schema};
ghost use Rattle.mf_store_sql.specs.Writes.{Serves};
ghost use Rattle.mf_model.specs.Institution.{Institution, newly_made};
ghost use Rattle.mf_store_schema.specs.Writes.{schema_of, Holds};
ghost use Rattle.mf_store_schema.specs.Schemas.{IsKnown, IsUnchangedUnder};
ghost use Rattle.mf_store_schema.specs.Versions.{IsOfVersion};
ghost use Rattle.mf_store_schema.specs.Whole.{HaveRowids};
ghost use Rattle.mf_store_schema.specs.declared.versions.Version.TheVariants.{First, Second};
ghost use Rattle.mf_store_noted.specs.Kept.{journaled};
ghost use Rattle.mf_store_noted.specs.Tabled.{IsUnfounded, IsUnfoundedJournaled};
ghost use Rattle.mf_store.specs.Stands.{StandsFor, IsClean, Leaves, IsOpen};
ghost use Rattle.mf_store_files.specs.Versions.{IsTabledAt, IsLeftAt, LacksJournal};
ghost use Rattle.mf_store_sound.specs.Held.{CanBeOpened};
ghost use Rattle.mf_store_files.specs.Taken.{IsTaken, IsGivenBack};

use crate::upgraded::bring_up;
use mf_base::{Day, Fault};
use mf_store::{Known, Store};
use mf_store_schema::{Progress, Version, has_no_tables, version_of};
use mf_store_sound::{SoundTables, read_sound};
use sqlite::{Alter, Connection};
use sqlite_schema::schema::Schema;
use std::alloc::Global;

/// Why no store is made over an institution that is to be there.
#[derive(Clone, Copy, Debug, Drop, PartialEq, Eq)]
pub enum Refused {
    /// There are no tables.
    NoInstitution,
    Failed(Fault),
}

/// A store over tables of a version; those of the first are brought to the second's in one commit.
fn take_over<S: Alter, P: Progress>(
    alloc: Global,
    mut connection: Connection<S>,
    version: Version,
    progress: &mut P,
) -> Result<Store<S>, (Fault, Connection<S>)>
    requires alone { connection.in_transaction ≡ false }
    ensures premise { IfOk result (λ store. IsClean S.Store store → HasCleanDisk (state S.Store connection)) }
    ensures sound { IfOk result (λ store. IsClean S.Store store → IsOfVersion version (state S.Store
        connection).now.schema → HaveRowids version (state S.Store connection).now.trees
        → CanBeOpened version (state S.Store connection).now.trees) }
    ensures stands { IfOk result (λ store. IsClean S.Store store → (i : Institution)
        → IsTabledAt S.Store version connection i → StandsFor S.Store store i) }
    ensures leaves { IfOk result (λ store. IsClean S.Store store → (i : Institution)
        → IsTabledAt S.Store version connection i → Leaves S.Store store (i ∷ [])) }
    ensures was_open { IfOk result (λ store. IsClean S.Store store → IsTrue (state S.Store connection).is_open) }
    ensures open { IfOk result (λ store. IsClean S.Store store → IsOpen S.Store store) }
    ensures still { IfErr result (λ e. HasCleanDisk (state S.Store e.1) → HasCleanDisk (state S.Store connection)) }
    ensures errors { IfErr result (λ e. (e.0 ≡ F19) ⊎ (e.0 ≡ F20)) }
    ensures refused { IfErr result (λ e. e.0 ≡ F19 → HasCleanDisk (state S.Store e.1)
        → IsOfVersion version (state S.Store connection).now.schema
        → ¬ CanBeOpened version (state S.Store connection).now.trees) }
    ensures left { IfErr result (λ e. IsOfVersion version (state S.Store connection).now.schema
        → IsLeftAt S.Store version connection e.1) }
    ensures unchanged { IfErr result (λ e. version ≢ First → IsUnchangedUnder (IsOfVersion version)
        (state S.Store connection) (state S.Store e.1)) }
    ensures alone { IfErr result (λ e. e.1.in_transaction ≡ false) }
{
    let found = match read_sound(alloc, &mut connection, version, progress) {
        Ok(Some(found)) => found,
        Ok(None) => return Err((Fault::F19, connection)),
        Err(fault) => return Err((fault, connection)),
    };
    let known = match Known::nothing(alloc) {
        Ok(known) => known,
        Err(fault) => return Err((fault, connection)),
    };
    let SoundTables { tables, journal } = found;
    match bring_up(alloc, &mut connection, version, tables) {
        Ok(()) => Ok(Store::over(connection, known, journal)),
        Err(fault) => Err((fault, connection)),
    }
}

/// A store over the tables of a connection where they are those of a version of this program's; those of the first are
/// brought to the second's, in one commit.
fn take_known<S: Alter, P: Progress>(
    alloc: Global,
    connection: Connection<S>,
    progress: &mut P,
) -> Result<Store<S>, (Fault, Connection<S>)>
    requires alone { connection.in_transaction ≡ false }
    ensures taken { IfOk result (IsTaken S.Store connection) }
    ensures known { IfOk result (λ store. IsKnown (state S.Store connection).now.schema) }
    ensures given_back { IfErr result (λ e. IsGivenBack S.Store connection e.1 e.0) }
{
    let Some(version) = version_of(connection.schema()) else {
        return Err((Fault::F19, connection));
    };
    take_over(alloc, connection, version, progress)
}

/// A store over the tables of a connection: where there are none, those of a new institution on this day, made in one
/// commit; else the institution that they hold, whatever the day, with its journal where they keep one. Tables of the
/// first version are brought to the second's, in one commit.
///
/// The day is at most 2099-12-31. F19 tells that the tables are others than this program makes, that no sound
/// institution has their rows, or that a line of its journal tells no request; F20 out of memory or a failure of the
/// disk. With either the connection comes back.
pub fn adopt<S: Alter, P: Progress>(
    alloc: Global,
    connection: Connection<S>,
    day: Day,
    progress: &mut P,
) -> Result<Store<S>, (Fault, Connection<S>)>
    requires alone { connection.in_transaction ≡ false }
    requires day { day ≤ last_entered_day }

    // Where there are no tables.
    ensures made { IfOk result (λ store. IsClean S.Store store → Serves schema_of Holds (state S.Store connection).now
        None → StandsFor S.Store store (newly_made day)) }
    ensures made_leaves { IfOk result (λ store. IsClean S.Store store
        → Serves schema_of Holds (state S.Store connection).now None → Leaves S.Store store (newly_made day ∷ [])) }
    ensures unfounded { IfErr result (λ e. Serves schema_of Holds (state S.Store connection).now None
        → IsUnfounded S.Store day connection e.1) }

    // Where there are some.
    ensures taken { IfOk result (IsTaken S.Store connection) }
    ensures known { IfOk result (λ store. ((state S.Store connection).now.schema ≡ no_schema)
        ⊎ IsKnown (state S.Store connection).now.schema) }
    ensures given_back { IfErr result (λ e. IsGivenBack S.Store connection e.1 e.0) }
    ensures some { IfErr result (λ e. e.0 ≡ F19 → (state S.Store connection).now.schema ≢ no_schema) }
{
    if has_no_tables(connection.schema()) {
        return Store::create(alloc, connection, day);
    }
    take_known(alloc, connection, progress)
}

/// A store over the tables of a connection as `adopt` makes it, but where there are none nothing is made: then it is
/// refused, and the connection comes back as it was.
pub fn adopt_existing<S: Alter, P: Progress>(
    alloc: Global,
    connection: Connection<S>,
    progress: &mut P,
) -> Result<Store<S>, (Refused, Connection<S>)>
    requires alone { connection.in_transaction ≡ false }
    ensures taken { IfOk result (IsTaken S.Store connection) }
    ensures known { IfOk result (λ store. IsKnown (state S.Store connection).now.schema) }
    ensures none { IfErr result (λ e. (e.0 ≡ Refused.NoInstitution) ↔ ((state S.Store connection).now.schema
        ≡ no_schema)) }
    ensures same { IfErr result (λ e. e.0 ≡ Refused.NoInstitution → e.1 ≡ connection) }
    ensures given_back { IfErr result (λ e. (fault : Fault) → e.0 ≡ Refused.Failed fault
        → IsGivenBack S.Store connection e.1 fault) }
{
    if has_no_tables(connection.schema()) {
        return Err((Refused::NoInstitution, connection));
    }
    match take_known(alloc, connection, progress) {
        Ok(store) => Ok(store),
        Err((fault, connection)) => Err((Refused::Failed(fault), connection)),
    }
}

/// Why no store is made over an institution that is to keep a journal.
#[derive(Clone, Copy, Debug, Drop, PartialEq, Eq)]
pub enum Unjournaled {
    /// The institution that is there keeps none.
    NoJournal,
    Refused(Refused),
}

/// Whether a version has no journal.
fn is_without_journal(version: Version) -> bool
    ensures { IsTrue result ↔ (version ≡ First) ⊎ (version ≡ Second) }
{
    match version {
        Version::First => true,
        Version::Second => true,
        Version::Third => false,
    }
}

/// Whether a schema is that of a version without a journal.
fn lacks_journal(schema: &Schema) -> bool
    ensures { IsTrue result ↔ LacksJournal schema.now }
{
    match version_of(schema) {
        None => false,
        Some(version) => is_without_journal(version),
    }
}

/// A store over tables of a new institution that keeps a journal, where there are no tables; refused where none is to
/// be made.
fn found_new<S: Alter>(
    alloc: Global,
    connection: Connection<S>,
    founds: Option<Day>,
) -> Result<Store<S>, (Unjournaled, Connection<S>)>
    requires alone { connection.in_transaction ≡ false }
    requires day { IfSome founds (λ day. day ≤ last_entered_day) }
    ensures premise { IfOk result (λ store. IsClean S.Store store → HasCleanDisk (state S.Store connection)) }
    ensures stands { IfOk result (λ store. IsClean S.Store store
        → Serves schema_of Holds (state S.Store connection).now None → (day : ℕ) → founds ≡ Some day
        → StandsFor S.Store store (journaled (newly_made day))) }
    ensures leaves { IfOk result (λ store. IsClean S.Store store
        → Serves schema_of Holds (state S.Store connection).now None → (day : ℕ) → founds ≡ Some day
        → Leaves S.Store store (journaled (newly_made day) ∷ [])) }
    ensures open { IfOk result (λ store. IsClean S.Store store → IsOpen S.Store store) }
    ensures was_open { IfOk result (λ store. IsClean S.Store store → IsTrue (state S.Store connection).is_open) }
    ensures still { IfErr result (λ e. HasCleanDisk (state S.Store e.1) → HasCleanDisk (state S.Store connection)) }
    ensures errors { IfErr result (λ e. ((e.0 ≡ Unjournaled.Refused Refused.NoInstitution) × (founds ≡ None)
        × (e.1 ≡ connection)) ⊎ ((e.0 ≡ Unjournaled.Refused (Refused.Failed F20)) × IsSome founds
        × ((day : ℕ) → founds ≡ Some day → IsUnfoundedJournaled S.Store day connection e.1)
        × (e.1.in_transaction ≡ false))) }
{
    let Some(day) = founds else {
        return Err((Unjournaled::Refused(Refused::NoInstitution), connection));
    };
    match Store::create_journaled(alloc, connection, day) {
        Ok(store) => Ok(store),
        Err((fault, connection)) => {
            Err((Unjournaled::Refused(Refused::Failed(fault)), connection))
        }
    }
}

/// A store over the tables of a connection, of an institution that keeps a journal: where there are none, those of a
/// new one on this day, made in one commit, if a day is given; else the institution that they hold.
///
/// The day is at most 2099-12-31. It is refused where there are no tables and none are to be made, and where the
/// institution keeps no journal; the connection comes back as it was then. The faults are those of `adopt`.
pub fn adopt_journaled<S: Alter, P: Progress>(
    alloc: Global,
    connection: Connection<S>,
    founds: Option<Day>,
    progress: &mut P,
) -> Result<Store<S>, (Unjournaled, Connection<S>)>
    requires alone { connection.in_transaction ≡ false }
    requires day { IfSome founds (λ day. day ≤ last_entered_day) }

    // Where there are no tables.
    ensures made { IfOk result (λ store. IsClean S.Store store → Serves schema_of Holds (state S.Store connection).now
        None → (day : ℕ) → founds ≡ Some day → StandsFor S.Store store (journaled (newly_made day))) }
    ensures made_leaves { IfOk result (λ store. IsClean S.Store store
        → Serves schema_of Holds (state S.Store connection).now None → (day : ℕ) → founds ≡ Some day
        → Leaves S.Store store (journaled (newly_made day) ∷ [])) }
    ensures unfounded { IfErr result (λ e. Serves schema_of Holds (state S.Store connection).now None → (day : ℕ)
        → founds ≡ Some day → IsUnfoundedJournaled S.Store day connection e.1) }
    ensures none { IfErr result (λ e. (e.0 ≡ Unjournaled.Refused Refused.NoInstitution)
        → ((state S.Store connection).now.schema ≡ no_schema) × (e.1 ≡ connection)) }

    // Where there are some.
    ensures taken { IfOk result (IsTaken S.Store connection) }
    ensures known { IfOk result (λ store. ((state S.Store connection).now.schema ≡ no_schema)
        ⊎ IsKnown (state S.Store connection).now.schema) }
    ensures keeps { OnOk result (¬ LacksJournal (state S.Store connection).now.schema) }
    ensures no_journal { IfErr result (λ e. (e.0 ≡ Unjournaled.NoJournal)
        ↔ LacksJournal (state S.Store connection).now.schema) }
    ensures same { IfErr result (λ e. e.0 ≡ Unjournaled.NoJournal → e.1 ≡ connection) }
    ensures still { IfErr result (λ e. HasCleanDisk (state S.Store e.1) → HasCleanDisk (state S.Store connection)) }
    ensures given_back { IfErr result (λ e. (fault : Fault) → e.0 ≡ Unjournaled.Refused (Refused.Failed fault)
        → IsGivenBack S.Store connection e.1 fault) }
{
    if has_no_tables(connection.schema()) {
        return found_new(alloc, connection, founds);
    }
    if lacks_journal(connection.schema()) {
        return Err((Unjournaled::NoJournal, connection));
    }
    match take_known(alloc, connection, progress) {
        Ok(store) => Ok(store),
        Err((fault, connection)) => {
            Err((Unjournaled::Refused(Refused::Failed(fault)), connection))
        }
    }
}
