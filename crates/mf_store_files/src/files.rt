//! Stores over files, by what these held as they were opened.

ghost use Rattle.std.specs.Prelude.{◌≡◌, ◌≤◌, ◌⊎◌, ℕ, List, [], ◌∷◌, Some, None, IfOk, IfErr, IfSome, IsSomeAnd};
ghost use Rattle.mf_base.specs.declared.fault.Fault.{Fault};
ghost use Rattle.mf_base.specs.declared.fault.Fault.TheVariants.{F19, F20};
ghost use Rattle.mf_base.specs.DayText.{last_entered_day};
ghost use Rattle.sqlite.specs.Files.{file_state, over_files, HoldsDatabase};
ghost use Rattle.sqlite.specs.State.{HasCleanDisk};
ghost use Rattle.sqlite.specs.Tree.{Trees};
ghost use Rattle.sqlite_wal.specs.Files.{image_at};
ghost use Rattle.mf_model.specs.Institution.{newly_made};
ghost use Rattle.mf_store_values.specs.Flat.{tables_of};
ghost use Rattle.mf_store_schema.specs.Writes.{Holds};
ghost use Rattle.sqlite_catalog.specs.Listing.{IsSound};
ghost use Rattle.mf_journal.specs.Founding.{founding};
ghost use Rattle.mf_store_noted.specs.Kept.{journaled, tables_kept};
ghost use Rattle.mf_store_schema.specs.Versions.{schema_at};
ghost use Rattle.mf_store_schema.specs.declared.versions.Version.{Version};
ghost use Rattle.mf_store_schema.specs.declared.versions.Version.TheVariants.{Third};
ghost use Rattle.mf_store.specs.Stands.{StandsFor, IsClean, Leaves, IsOpen};
ghost use Rattle.mf_store_sound.specs.Files.{HasNoTables};
ghost use Rattle.mf_store_files.specs.Opened.{HoldsNoneSound, OpensAsFound, StaysAsFound};

use crate::adopted::{Refused, Unjournaled, adopt, adopt_existing, adopt_journaled};
use mf_base::{Day, Fault};
use mf_store::Store;
use mf_store_schema::{Progress, remove_bare_log};
use mf_store_sound::connect;
use sqlite::{Connection, File, FileFrom, FileStore, Start, Unknown};
use std::rt::HostRuntime;

/// A store over the file at a path, where `start` stands for what the file held: where it had no tables, which is so
/// too of one that is missing, those of a new institution on this day, made in one commit; else the institution that it
/// holds, whatever the day. Tables of an older version are brought to today's, in one commit. A file that is made has
/// sums of its pages (`mf_store_schema`).
///
/// The day is at most 2099-12-31. F19 tells that the tables are others than this program makes, or that no sound
/// institution has the rows of the file, and F20 out of memory, a file that could not be opened, or a failure of the
/// disk. The connection comes back once there is one.
pub fn open_with<S: Start, P: Progress>(
    rt: &HostRuntime,
    path: &str,
    start: S,
    day: Day,
    progress: &mut P,
) -> Result<Store<FileStore<FileFrom<S>>>, (Fault, Option<Connection<FileStore<FileFrom<S>>>>)>
    requires { day ≤ last_entered_day }

    // Where there were no tables.
    ensures made { IfOk result (λ store. IsClean over_files store → HasNoTables (image_at S.Start)
        → StandsFor over_files store (newly_made day)) }
    ensures made_leaves { IfOk result (λ store. IsClean over_files store → HasNoTables (image_at S.Start)
        → Leaves over_files store (newly_made day ∷ [])) }
    ensures unfounded { IfErr result (λ e. IfSome e.1 (λ c. HasCleanDisk (file_state c) → HasNoTables (image_at S.Start)
        → (left : Trees) → (file_state c).may_leave left → Holds left None
        ⊎ Holds left (Some (tables_of (newly_made day))))) }

    // Where there were some.
    ensures found { IfOk result (OpensAsFound (image_at S.Start)) }
    ensures kept { IfErr result (λ e. IfSome e.1 (λ c. StaysAsFound (image_at S.Start) c e.0)) }

    ensures errors { IfErr result (λ e. (e.0 ≡ F19) ⊎ (e.0 ≡ F20)) }
    ensures refused { IfErr result (λ e. e.0 ≡ F19 → IsSomeAnd e.1 (λ c. HasCleanDisk (file_state c)
        → HoldsNoneSound (image_at S.Start))) }
{
    let connection = match connect(rt, path, start) {
        Ok(connection) => connection,
        Err(_) => return Err((Fault::F20, None)),
    };
    match adopt(rt.alloc(), connection, day, progress) {
        Ok(store) => Ok(store),
        Err((fault, connection)) => Err((fault, Some(connection))),
    }
}

/// As `open_with`, but where the file had no tables no institution is made: then it is refused with `NoInstitution`. A
/// file that is missing is made even so, without tables; so the caller sees first that there is one.
pub fn open_existing_with<S: Start, P: Progress>(
    rt: &HostRuntime,
    path: &str,
    start: S,
    progress: &mut P,
) -> Result<Store<FileStore<FileFrom<S>>>, (Refused, Option<Connection<FileStore<FileFrom<S>>>>)>
    // Where there were no tables.
    ensures some { IfOk result (λ store. IsClean over_files store → ¬ HasNoTables (image_at S.Start)) }
    ensures none { IfErr result (λ e. IfSome e.1 (λ c. HasCleanDisk (file_state c) → HasNoTables (image_at S.Start)
        → e.0 ≡ Refused.NoInstitution)) }
    ensures unfounded { IfErr result (λ e. e.0 ≡ Refused.NoInstitution → IsSomeAnd e.1 (λ c. HasCleanDisk (file_state c)
        → ((left : Trees) → (file_state c).may_leave left → Holds left None)
        × ((trees : Trees) → HoldsDatabase (image_at S.Start) trees → Holds trees None))) }

    // Where there were some.
    ensures found { IfOk result (OpensAsFound (image_at S.Start)) }
    ensures kept { IfErr result (λ e. IfSome e.1 (λ c. (fault : Fault) → e.0 ≡ Refused.Failed fault
        → StaysAsFound (image_at S.Start) c fault)) }

    ensures errors { IfErr result (λ e. (e.0 ≡ Refused.NoInstitution) ⊎ ((e.0 ≡ Refused.Failed F19)
        ⊎ (e.0 ≡ Refused.Failed F20))) }
    ensures refused { IfErr result (λ e. e.0 ≡ Refused.Failed F19 → IsSomeAnd e.1 (λ c. HasCleanDisk (file_state c)
        → HoldsNoneSound (image_at S.Start))) }
{
    let connection = match connect(rt, path, start) {
        Ok(connection) => connection,
        Err(_) => return Err((Refused::Failed(Fault::F20), None)),
    };
    match adopt_existing(rt.alloc(), connection, progress) {
        Ok(store) => Ok(store),
        Err((refused, connection)) => Err((refused, Some(connection))),
    }
}

/// As `open_with`, of an institution that keeps a journal: where the file had no tables, those of a new one on this
/// day, if a day is given; else the institution that it holds. It is refused where none is to be made, and where the
/// institution that is there keeps no journal; the file is as it was then.
pub fn open_journaled_with<S: Start, P: Progress>(
    rt: &HostRuntime,
    path: &str,
    start: S,
    founds: Option<Day>,
    progress: &mut P,
) -> Result<
    Store<FileStore<FileFrom<S>>>,
    (Unjournaled, Option<Connection<FileStore<FileFrom<S>>>>),
>
    requires { IfSome founds (λ day. day ≤ last_entered_day) }

    // Where there were no tables.
    ensures made { IfOk result (λ store. IsClean over_files store → HasNoTables (image_at S.Start) → (day : ℕ)
        → founds ≡ Some day → StandsFor over_files store (journaled (newly_made day))) }
    ensures made_leaves { IfOk result (λ store. IsClean over_files store → HasNoTables (image_at S.Start) → (day : ℕ)
        → founds ≡ Some day → Leaves over_files store (journaled (newly_made day) ∷ [])) }
    ensures unfounded { IfErr result (λ e. IfSome e.1 (λ c. HasCleanDisk (file_state c) → HasNoTables (image_at S.Start)
        → (day : ℕ) → founds ≡ Some day → (left : Trees) → (file_state c).may_leave left → Holds left None
        ⊎ Holds left (Some (tables_kept (Some (founding 3 day)) (journaled (newly_made day)))))) }

    // Where there were some.
    ensures found { IfOk result (OpensAsFound (image_at S.Start)) }
    ensures keeps { IfOk result (λ store. IsClean over_files store → (v : Version) (trees : Trees)
        → HoldsDatabase (image_at S.Start) trees → IsSound (schema_at v) trees → v ≡ Third) }
    ensures kept { IfErr result (λ e. IfSome e.1 (λ c. (fault : Fault)
        → e.0 ≡ Unjournaled.Refused (Refused.Failed fault) → StaysAsFound (image_at S.Start) c fault)) }
    ensures as_it_was { IfErr result (λ e. IfSome e.1 (λ c. e.0 ≡ Unjournaled.NoJournal → HasCleanDisk (file_state c)
        → (trees : Trees) → HoldsDatabase (image_at S.Start) trees → (left : Trees) → (file_state c).may_leave left
        → left ≡ trees)) }
{
    let connection = match connect(rt, path, start) {
        Ok(connection) => connection,
        Err(_) => {
            return Err((Unjournaled::Refused(Refused::Failed(Fault::F20)), None));
        }
    };
    match adopt_journaled(rt.alloc(), connection, founds, progress) {
        Ok(store) => Ok(store),
        Err((refused, connection)) => Err((refused, Some(connection))),
    }
}

/// As `open_with`, in `main` and where nothing is said of what the file held. It supposes that a torn write leaves each
/// byte old or new.
pub fn open<P: Progress>(
    rt: &HostRuntime,
    path: &str,
    day: Day,
    progress: &mut P,
) -> Result<Store<FileStore<File>>, Fault>
    requires { day ≤ last_entered_day }
    ensures open { IfOk result (λ store. IsClean over_files store → IsOpen over_files store) }
    ensures errors { IfErr result (λ fault. (fault ≡ F19) ⊎ (fault ≡ F20)) }
{
    match open_with(rt, path, Unknown, day, progress) {
        Ok(store) => Ok(store),
        Err((fault, None)) => Err(fault),
        Err((fault, Some(held))) => {
            remove_bare_log(rt, path);
            drop(held);
            Err(fault)
        }
    }
}

/// As `open_existing_with`, likewise.
pub fn open_existing<P: Progress>(
    rt: &HostRuntime,
    path: &str,
    progress: &mut P,
) -> Result<Store<FileStore<File>>, Refused>
    ensures open { IfOk result (λ store. IsClean over_files store → IsOpen over_files store) }
    ensures errors { IfErr result (λ refused. (refused ≡ Refused.NoInstitution) ⊎ ((refused ≡ Refused.Failed F19)
        ⊎ (refused ≡ Refused.Failed F20))) }
{
    match open_existing_with(rt, path, Unknown, progress) {
        Ok(store) => Ok(store),
        Err((refused, None)) => Err(refused),
        Err((refused, Some(held))) => {
            remove_bare_log(rt, path);
            drop(held);
            Err(refused)
        }
    }
}

/// As `open_journaled_with`, likewise.
pub fn open_journaled<P: Progress>(
    rt: &HostRuntime,
    path: &str,
    founds: Option<Day>,
    progress: &mut P,
) -> Result<Store<FileStore<File>>, Unjournaled>
    requires { IfSome founds (λ day. day ≤ last_entered_day) }
    ensures open { IfOk result (λ store. IsClean over_files store → IsOpen over_files store) }
{
    match open_journaled_with(rt, path, Unknown, founds, progress) {
        Ok(store) => Ok(store),
        Err((refused, None)) => Err(refused),
        Err((refused, Some(held))) => {
            remove_bare_log(rt, path);
            drop(held);
            Err(refused)
        }
    }
}
