//! The first version of the tables brought to the second in one commit.

ghost use Rattle.std.specs.Prelude.{◌≡◌, ◌⊎◌, false, Some, IsTrue, OnOk, OnErr, IfOk, IfErr};
ghost use Rattle.mf_base.specs.declared.fault.Fault.TheVariants.{F20};
ghost use Rattle.sqlite.specs.Held.{state};
ghost use Rattle.sqlite.specs.State.{HasCleanDisk};
ghost use Rattle.sqlite.specs.Tree.{Trees};
ghost use Rattle.mf_store_schema.specs.Calls.{OnlyFaultsShut};
ghost use Rattle.mf_store_schema.specs.Rows.{Lists};
ghost use Rattle.mf_store_schema.specs.Writes.{Holds};
ghost use Rattle.mf_store_schema.specs.Upgrade.{upgrade_writes, upgraded_lists, CanUpgrade};
ghost use Rattle.mf_store_schema.specs.declared.versions.Version.TheVariants.{First};
ghost use Rattle.mf_store_schema.specs.Upgraded.{IsKeepingAt, IsUpgradedTo};

use crate::instalments::InstalmentRow;
use crate::meta::MetaRow;
use crate::shares::ShareRow;
use crate::upgrade_writes::UpgradeWrite;
use crate::writes::StoreWrite;
use mf_base::Fault;
use mf_store_sql::apply;
use sqlite::{Alter, Connection};
use std::alloc::Global;

/// The two tables, their rows, and the row of meta.
fn all_writes(
    alloc: Global,
    meta: MetaRow,
    instalments: Vec<InstalmentRow>,
    shares: Vec<ShareRow>,
) -> Result<Vec<UpgradeWrite>, Fault>
    ensures writes { IfOk result (λ writes. writes.items ≡ upgrade_writes meta instalments.items shares.items) }
    ensures gives_up { IfErr result (λ fault. fault ≡ F20) }
{
    let mut writes = Vec::new(alloc);
    writes.push(UpgradeWrite::MakeAccountTables)?;
    for instalment in instalments {
        writes.push(UpgradeWrite::Put(StoreWrite::PutInstalment(instalment)))?;
    }
    for share in shares {
        writes.push(UpgradeWrite::Put(StoreWrite::PutShare(share)))?;
    }
    writes.push(UpgradeWrite::Put(StoreWrite::PutMeta(meta)))?;
    Ok(writes)
}

/// Brings tables of the first version to the second, in one commit: tables of instalments and of shares with these
/// rows, and this row of meta in place of the old one.
///
/// The clauses speak of rows that rise by key, and of one row of meta under the key of the new one. The error is F20.
pub fn upgrade<S: Alter>(
    alloc: Global,
    connection: &mut Connection<S>,
    meta: MetaRow,
    instalments: Vec<InstalmentRow>,
    shares: Vec<ShareRow>,
) -> Result<(), Fault>
    requires alone { connection.old.in_transaction ≡ false }
    ensures premise { HasCleanDisk (state S.Store connection.new) → HasCleanDisk (state S.Store connection.old) }
    ensures gives_up { IfErr result (λ fault. fault ≡ F20) }
    ensures shuts { OnlyFaultsShut (state S.Store connection.old) (state S.Store connection.new) }
    ensures open { HasCleanDisk (state S.Store connection.new)
        → OnOk result (IsTrue (state S.Store connection.new).is_open) }
    ensures was_open { HasCleanDisk (state S.Store connection.new) → IsTrue (state S.Store connection.new).is_open
        → IsTrue (state S.Store connection.old).is_open }

    ensures made { HasCleanDisk (state S.Store connection.new) → OnOk result ((lists : Lists)
        → CanUpgrade meta instalments.items shares.items lists → IsKeepingAt First (state S.Store connection.old) lists
        → IsUpgradedTo (state S.Store connection.new) (upgraded_lists meta instalments.items shares.items lists)) }
    ensures same { HasCleanDisk (state S.Store connection.new) → IsTrue (state S.Store connection.new).is_open
        → OnErr result ((state S.Store connection.new).now ≡ (state S.Store connection.old).now) }

    // A stop leaves what it could leave before, or the second version whole.
    ensures stop { HasCleanDisk (state S.Store connection.new) → (lists : Lists) → CanUpgrade meta instalments.items
        shares.items lists → IsKeepingAt First (state S.Store connection.old) lists
        → (trees : Trees) → (state S.Store connection.new).may_leave trees → (state S.Store connection.old).may_leave
        trees ⊎ Holds trees (Some (upgraded_lists meta instalments.items shares.items lists)) }
    ensures mode { connection.new.in_transaction ≡ false }
{
    // With nothing to commit a stop leaves just the tables as they are; the call brings that into the proof.
    let _settled = connection.is_autocommit();
    let writes = match all_writes(alloc, meta, instalments, shares) {
        Ok(writes) => writes,
        Err(fault) => return Err(fault),
    };
    match apply(connection, &writes) {
        Ok(()) => Ok(()),
        Err(_) => Err(Fault::F20),
    }
}
