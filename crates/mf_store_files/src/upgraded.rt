//! The tables of a sound institution brought from the first version to the second.

ghost use Rattle.std.specs.Prelude.{◌≡◌, ◌≢◌, ◌⊎◌, false, Some, IsTrue, OnOk, OnErr, IfErr};
ghost use Rattle.mf_base.specs.declared.fault.Fault.TheVariants.{F20};
ghost use Rattle.sqlite.specs.Held.{state};
ghost use Rattle.sqlite.specs.State.{HasCleanDisk};
ghost use Rattle.sqlite.specs.Tree.{Trees};
ghost use Rattle.mf_model.specs.Institution.{Institution};
ghost use Rattle.mf_model.specs.Sound.{IsSound};
ghost use Rattle.mf_store_schema.specs.Calls.{IsKeeping, OnlyFaultsShut};
ghost use Rattle.mf_store_schema.specs.Writes.{Holds};
ghost use Rattle.mf_store_schema.specs.Upgraded.{IsKeepingAt};
ghost use Rattle.mf_store_schema.specs.declared.versions.Version.TheVariants.{First};
ghost use Rattle.mf_store_values.specs.Flat.{tables_of};
ghost use Rattle.mf_store_sound.specs.Schemas.{tables_at};

use mf_base::Fault;
use mf_store_schema::{Version, upgrade};
use mf_store_sound::{Tables, with_accounts};
use sqlite::{Alter, Connection};
use std::alloc::Global;

/// Brings tables of the first version, which keep these rows of a sound institution, to the second, in one commit. The
/// error is F20.
fn bring_up_first<S: Alter>(
    alloc: Global,
    connection: &mut Connection<S>,
    tables: Tables,
) -> Result<(), Fault>
    requires alone { connection.old.in_transaction ≡ false }
    ensures premise { HasCleanDisk (state S.Store connection.new) → HasCleanDisk (state S.Store connection.old) }
    ensures gives_up { IfErr result (λ fault. fault ≡ F20) }
    ensures shuts { OnlyFaultsShut (state S.Store connection.old) (state S.Store connection.new) }
    ensures open { HasCleanDisk (state S.Store connection.new)
        → OnOk result (IsTrue (state S.Store connection.new).is_open) }
    ensures was_open { HasCleanDisk (state S.Store connection.new) → IsTrue (state S.Store connection.new).is_open
        → IsTrue (state S.Store connection.old).is_open }
    ensures made { HasCleanDisk (state S.Store connection.new) → OnOk result ((i : Institution) → IsSound i
        → tables_at First i ≡ tables → IsKeepingAt First (state S.Store connection.old) (tables_at First i)
        → IsKeeping (state S.Store connection.new) (tables_of i)) }
    ensures same { HasCleanDisk (state S.Store connection.new) → IsTrue (state S.Store connection.new).is_open
        → OnErr result ((state S.Store connection.new).now ≡ (state S.Store connection.old).now) }
    ensures stop { HasCleanDisk (state S.Store connection.new) → (i : Institution) → IsSound i
        → tables_at First i ≡ tables → IsKeepingAt First (state S.Store connection.old) (tables_at First i)
        → (trees : Trees) → (state S.Store connection.new).may_leave trees → (state S.Store connection.old).may_leave
        trees ⊎ Holds trees (Some (tables_of i)) }
    ensures mode { connection.new.in_transaction ≡ false }
{
    let today = match with_accounts(alloc, tables) {
        Ok(today) => today,
        Err(fault) => return Err(fault),
    };
    let Some(meta) = today.meta.into_iter().next() else {
        return Err(Fault::F20);
    };
    upgrade(alloc, connection, meta, today.instalments, today.shares)
}

/// Brings tables of the first version, which keep these rows of a sound institution, to the second, in one commit, and
/// leaves those of the others as they are. The error is F20.
pub(crate) fn bring_up<S: Alter>(
    alloc: Global,
    connection: &mut Connection<S>,
    version: Version,
    tables: Tables,
) -> Result<(), Fault>
    requires alone { connection.old.in_transaction ≡ false }
    ensures premise { HasCleanDisk (state S.Store connection.new) → HasCleanDisk (state S.Store connection.old) }
    ensures gives_up { IfErr result (λ fault. fault ≡ F20) }
    ensures shuts { OnlyFaultsShut (state S.Store connection.old) (state S.Store connection.new) }
    ensures open { HasCleanDisk (state S.Store connection.new) → IsTrue (state S.Store connection.old).is_open
        → OnOk result (IsTrue (state S.Store connection.new).is_open) }
    ensures was_open { HasCleanDisk (state S.Store connection.new) → IsTrue (state S.Store connection.new).is_open
        → IsTrue (state S.Store connection.old).is_open }

    // The institution is the one whose rows the tables kept.
    ensures made { version ≡ First → HasCleanDisk (state S.Store connection.new) → OnOk result ((i : Institution)
        → IsSound i → tables_at First i ≡ tables → IsKeepingAt First (state S.Store connection.old) (tables_at First i)
        → IsKeeping (state S.Store connection.new) (tables_of i)) }
    ensures same { HasCleanDisk (state S.Store connection.new) → IsTrue (state S.Store connection.new).is_open
        → OnErr result ((state S.Store connection.new).now ≡ (state S.Store connection.old).now) }

    // A stop leaves what it could leave before, or the second version's tables, whole.
    ensures stop { HasCleanDisk (state S.Store connection.new) → (i : Institution) → IsSound i
        → tables_at version i ≡ tables → IsKeepingAt version (state S.Store connection.old) (tables_at version i)
        → (trees : Trees) → (state S.Store connection.new).may_leave trees → (state S.Store connection.old).may_leave
        trees ⊎ ((version ≡ First) × Holds trees (Some (tables_of i))) }
    ensures others { version ≢ First → connection.new ≡ connection.old }
    ensures mode { connection.new.in_transaction ≡ false }
{
    match version {
        Version::First => bring_up_first(alloc, connection, tables),
        Version::Second | Version::Third => Ok(()),
    }
}
