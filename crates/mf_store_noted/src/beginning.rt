//! Journals that begin: of a new institution, and of one that keeps none.

ghost use Rattle.std.specs.Prelude.{◌≡◌, ◌≤◌, ◌⊎◌, ◌↔◌, ℕ, [], ◌∷◌, None, Some, false, IsTrue, OnOk, OnErr, IfOk};
ghost use Rattle.std.specs.Prelude.{IfErr};
ghost use Rattle.mf_base.specs.declared.fault.Fault.TheVariants.{F20};
ghost use Rattle.sqlite.specs.Held.{state};
ghost use Rattle.sqlite.specs.State.{HasCleanDisk};
ghost use Rattle.sqlite.specs.Tree.{Trees};
ghost use Rattle.mf_base.specs.DayText.{last_entered_day};
ghost use Rattle.mf_model.specs.Institution.{Institution, newly_made};
ghost use Rattle.mf_store_sql.specs.Writes.{Serves};
ghost use Rattle.mf_store_schema.specs.Calls.{OnlyFaultsShut};
ghost use Rattle.mf_store_schema.specs.Writes.{schema_of, Holds};
ghost use Rattle.mf_store_schema.specs.declared.writes.StoreWrite.TheVariants.{PutMeta};
ghost use Rattle.mf_model.specs.Sound.{IsSound};
ghost use Rattle.mf_journal.specs.Founding.{founding};
ghost use Rattle.mf_store_commits.specs.Becoming.{Begins};
ghost use Rattle.mf_store_journal.specs.Checking.{CanBegin};
ghost use Rattle.mf_store_noted.specs.Kept.{journaled, meta_kept, tables_kept};
ghost use Rattle.mf_store_noted.specs.Tabled.{IsKeptIn, LeavesTables};

use crate::noted::puts;
use mf_base::{Day, Fault};
use mf_journal::Head;
use mf_model::laws;
use mf_store_commits::first_writes;
use mf_store_journal::{NotedWrite, beginning_row, has_room};
use mf_store_schema::{MetaRow, StoreWrite, Text};
use mf_store_sql::apply;
use sqlite::{Alter, Connection};
use std::alloc::Global;

/// The number of the schema that has a journal.
pub const JOURNALED_SCHEMA: u32 = 3;

/// Where the journal of an institution begins that is founded on a business day.
pub fn founding_head(day: Day) -> Head
    ensures head { result ≡ founding 3 day }
    ensures can { CanBegin result }
{
    Head::founding(JOURNALED_SCHEMA as u64, u64::from(day.number()))
}

/// The write of the row of meta on a business day, with the number of the schema that has a journal.
fn journaled_meta(alloc: Global, day: Day) -> Result<StoreWrite, Fault>
    ensures write { IfOk result (λ write. (begins : Head) → write ≡ PutMeta (meta_kept (Some begins) day)) }
    ensures gives_up { IfErr result (λ fault. fault ≡ F20) }
{
    Ok(StoreWrite::PutMeta(MetaRow {
        one: 1,
        schema: JOURNALED_SCHEMA,
        day: Text::new(day.text(alloc)?),
    }))
}

/// Whether a journal can begin here: its numbers have room in the table.
fn can_begin(begins: Head) -> bool
    ensures { IsTrue result ↔ CanBegin begins }
{
    has_room(beginning_row(begins))
}

/// Puts the row of meta, and begins the journal, in one commit.
fn begin_with<S: Alter>(
    connection: &mut Connection<S>,
    meta: &StoreWrite,
    begins: Head,
) -> Result<(), Fault>
    requires alone { connection.old.in_transaction ≡ false }
    ensures premise { HasCleanDisk (state S.Store connection.new) → HasCleanDisk (state S.Store connection.old) }
    ensures gives_up { IfErr result (λ fault. fault ≡ F20) }
    ensures shuts { OnlyFaultsShut (state S.Store connection.old) (state S.Store connection.new) }
    ensures open { HasCleanDisk (state S.Store connection.new)
        → OnOk result (IsTrue (state S.Store connection.new).is_open) }
    ensures made { HasCleanDisk (state S.Store connection.new) → OnOk result ((i : Institution)
        → IsKeptIn S.Store None connection.old i → meta.now ≡ PutMeta (meta_kept (Some begins) i.catalogue.day)
        → IsKeptIn S.Store (Some begins) connection.new (journaled i)) }
    ensures left { HasCleanDisk (state S.Store connection.new) → OnOk result ((i : Institution)
        → IsKeptIn S.Store None connection.old i → meta.now ≡ PutMeta (meta_kept (Some begins) i.catalogue.day)
        → LeavesTables S.Store connection.new (journaled i ∷ [])) }
    ensures same { HasCleanDisk (state S.Store connection.new) → OnErr result ((i : Institution)
        → IsKeptIn S.Store None connection.old i → IsKeptIn S.Store None connection.new i) }

    // A stop leaves what it could leave before, or the institution with its journal, whole.
    ensures stop { HasCleanDisk (state S.Store connection.new) → (i : Institution)
        → IsKeptIn S.Store None connection.old i → meta.now ≡ PutMeta (meta_kept (Some begins) i.catalogue.day)
        → (trees : Trees)
        → (state S.Store connection.new).may_leave trees → (state S.Store connection.old).may_leave trees
        ⊎ Holds trees (Some (tables_kept (Some begins) (journaled i))) }
    ensures mode { connection.new.in_transaction ≡ false }
{
    if !can_begin(begins) {
        return Err(Fault::F20);
    }
    match apply(
        connection,
        &[NotedWrite::Put(meta), NotedWrite::Begin(begins)],
    ) {
        Ok(()) => Ok(()),
        Err(_) => Err(Fault::F20),
    }
}

/// Gives the institution in the tables a journal that begins here and has no line yet, in one commit; its other rows
/// stay. The error is F20.
///
/// The clauses speak of an institution that keeps no journal, and of its business day.
pub fn begin_journal<S: Alter>(
    alloc: Global,
    connection: &mut Connection<S>,
    day: Day,
    begins: Head,
) -> Result<(), Fault>
    requires alone { connection.old.in_transaction ≡ false }
    ensures premise { HasCleanDisk (state S.Store connection.new) → HasCleanDisk (state S.Store connection.old) }
    ensures gives_up { IfErr result (λ fault. fault ≡ F20) }
    ensures shuts { OnlyFaultsShut (state S.Store connection.old) (state S.Store connection.new) }
    ensures open { HasCleanDisk (state S.Store connection.new)
        → OnOk result (IsTrue (state S.Store connection.new).is_open) }
    ensures made { HasCleanDisk (state S.Store connection.new) → OnOk result ((i : Institution)
        → IsKeptIn S.Store None connection.old i → i.catalogue.day ≡ day
        → IsKeptIn S.Store (Some begins) connection.new (journaled i)) }
    ensures left { HasCleanDisk (state S.Store connection.new) → OnOk result ((i : Institution)
        → IsKeptIn S.Store None connection.old i → i.catalogue.day ≡ day
        → LeavesTables S.Store connection.new (journaled i ∷ [])) }
    ensures same { HasCleanDisk (state S.Store connection.new) → OnErr result ((i : Institution)
        → IsKeptIn S.Store None connection.old i → IsKeptIn S.Store None connection.new i) }

    // A stop leaves what it could leave before, or the institution with its journal, whole.
    ensures stop { HasCleanDisk (state S.Store connection.new) → (i : Institution)
        → IsKeptIn S.Store None connection.old i → i.catalogue.day ≡ day → (trees : Trees)
        → (state S.Store connection.new).may_leave trees → (state S.Store connection.old).may_leave trees
        ⊎ Holds trees (Some (tables_kept (Some begins) (journaled i))) }
    ensures mode { connection.new.in_transaction ≡ false }
{
    let meta = journaled_meta(alloc, day)?;
    begin_with(connection, &meta, begins)
}

/// Puts the row of meta and begins the journal behind the writes of a new institution, all in one commit.
fn found_with<S: Alter>(
    alloc: Global,
    connection: &mut Connection<S>,
    writes: &[StoreWrite],
    meta: &StoreWrite,
    begins: Head,
) -> Result<(), Fault>
    requires alone { connection.old.in_transaction ≡ false }
    ensures premise { HasCleanDisk (state S.Store connection.new) → HasCleanDisk (state S.Store connection.old) }
    ensures gives_up { IfErr result (λ fault. fault ≡ F20) }
    ensures shuts { OnlyFaultsShut (state S.Store connection.old) (state S.Store connection.new) }
    ensures open { HasCleanDisk (state S.Store connection.new)
        → OnOk result (IsTrue (state S.Store connection.new).is_open) }
    ensures was_open { HasCleanDisk (state S.Store connection.new) → IsTrue (state S.Store connection.new).is_open
        → IsTrue (state S.Store connection.old).is_open }
    ensures made { HasCleanDisk (state S.Store connection.new) → OnOk result ((day : ℕ)
        → IsSound (newly_made day) → Begins writes.now day → meta.now ≡ PutMeta (meta_kept (Some begins) day)
        → Serves schema_of Holds (state S.Store connection.old).now None
        → IsKeptIn S.Store (Some begins) connection.new (journaled (newly_made day))) }
    ensures left { HasCleanDisk (state S.Store connection.new) → OnOk result ((day : ℕ)
        → IsSound (newly_made day) → Begins writes.now day → meta.now ≡ PutMeta (meta_kept (Some begins) day)
        → Serves schema_of Holds (state S.Store connection.old).now None
        → LeavesTables S.Store connection.new (journaled (newly_made day) ∷ [])) }
    ensures same { HasCleanDisk (state S.Store connection.new) → IsTrue (state S.Store connection.new).is_open
        → OnErr result ((state S.Store connection.new).now ≡ (state S.Store connection.old).now) }

    // A stop leaves what it could leave before, or the new institution with its journal, whole.
    ensures stop { HasCleanDisk (state S.Store connection.new) → (day : ℕ) → IsSound (newly_made day)
        → Begins writes.now day → meta.now ≡ PutMeta (meta_kept (Some begins) day) → Serves schema_of Holds
        (state S.Store connection.old).now None → (trees : Trees)
        → (state S.Store connection.new).may_leave trees → (state S.Store connection.old).may_leave trees
        ⊎ Holds trees (Some (tables_kept (Some begins) (journaled (newly_made day)))) }
    ensures mode { connection.new.in_transaction ≡ false }
{
    if !can_begin(begins) {
        return Err(Fault::F20);
    }
    let mut noted = puts(alloc, writes)?;
    noted.push(NotedWrite::Put(meta))?;
    noted.push(NotedWrite::Begin(begins))?;
    match apply(connection, &noted) {
        Ok(()) => Ok(()),
        Err(_) => Err(Fault::F20),
    }
}

/// Makes a new institution on this business day that keeps a journal, which begins here and has no line yet, in one
/// commit where there are no tables. The day is at most 2099-12-31. The error is F20.
pub fn found_journaled<S: Alter>(
    alloc: Global,
    connection: &mut Connection<S>,
    day: Day,
    begins: Head,
) -> Result<(), Fault>
    requires alone { connection.old.in_transaction ≡ false }
    requires day { day ≤ last_entered_day }
    ensures premise { HasCleanDisk (state S.Store connection.new) → HasCleanDisk (state S.Store connection.old) }
    ensures gives_up { IfErr result (λ fault. fault ≡ F20) }
    ensures shuts { OnlyFaultsShut (state S.Store connection.old) (state S.Store connection.new) }
    ensures open { HasCleanDisk (state S.Store connection.new)
        → OnOk result (IsTrue (state S.Store connection.new).is_open) }
    ensures was_open { HasCleanDisk (state S.Store connection.new) → IsTrue (state S.Store connection.new).is_open
        → IsTrue (state S.Store connection.old).is_open }
    ensures made { HasCleanDisk (state S.Store connection.new) → OnOk result (Serves schema_of Holds
        (state S.Store connection.old).now None
        → IsKeptIn S.Store (Some begins) connection.new (journaled (newly_made day))) }
    ensures left { HasCleanDisk (state S.Store connection.new) → OnOk result (Serves schema_of Holds
        (state S.Store connection.old).now None
        → LeavesTables S.Store connection.new (journaled (newly_made day) ∷ [])) }
    ensures same { HasCleanDisk (state S.Store connection.new) → IsTrue (state S.Store connection.new).is_open
        → OnErr result ((state S.Store connection.new).now ≡ (state S.Store connection.old).now) }

    // A stop leaves what it could leave before, or the new institution with its journal, whole.
    ensures stop { HasCleanDisk (state S.Store connection.new) → Serves schema_of Holds
        (state S.Store connection.old).now None → (trees : Trees)
        → (state S.Store connection.new).may_leave trees → (state S.Store connection.old).may_leave trees
        ⊎ Holds trees (Some (tables_kept (Some begins) (journaled (newly_made day)))) }
    ensures mode { connection.new.in_transaction ≡ false }
{
    laws::soundness();
    let writes = first_writes(alloc, day)?;
    let meta = journaled_meta(alloc, day)?;
    found_with(alloc, connection, &writes, &meta, begins)
}
