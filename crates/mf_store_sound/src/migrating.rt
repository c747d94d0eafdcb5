//! Rows of a sound institution brought from the first version's tables to the second's.

ghost use Rattle.std.specs.Prelude.{◌≡◌, IfOk, IfErr};
ghost use Rattle.mf_base.specs.declared.fault.Fault.TheVariants.{F20};
ghost use Rattle.mf_model.specs.Institution.{Institution};
ghost use Rattle.mf_model.specs.Sound.{IsSound};
ghost use Rattle.mf_store_schema.specs.declared.versions.Version.TheVariants.{First, Second};
ghost use Rattle.mf_store_sound.specs.Schemas.{tables_at};

use crate::sound::account_rows;
use crate::tables::Tables;
use mf_base::Fault;
use mf_store_schema::{MetaRow, Version};
use std::alloc::Global;

/// The step from the first version to the second: the rows of accounts are added, as replaying the entries gives them,
/// and the number is the second's. The error is F20.
pub fn with_accounts(alloc: Global, tables: Tables) -> Result<Tables, Fault>
    ensures next { IfOk result (λ next. (i : Institution) → IsSound i → tables_at First i ≡ tables
        → next ≡ tables_at Second i) }
    ensures gives_up { IfErr result (λ fault. fault ≡ F20) }
{
    let (instalments, shares) = account_rows(alloc, &tables)?;
    let Some(old) = tables.meta.into_iter().next() else {
        return Err(Fault::F20);
    };
    let mut meta = Vec::new(alloc);
    meta.push(MetaRow {
        one: old.one,
        schema: Version::Second.number(),
        day: old.day,
    })?;
    Ok(Tables {
        meta,
        offices: tables.offices,
        staff: tables.staff,
        clients: tables.clients,
        charges: tables.charges,
        products: tables.products,
        loans: tables.loans,
        entries: tables.entries,
        receipts: tables.receipts,
        instalments,
        shares,
    })
}
