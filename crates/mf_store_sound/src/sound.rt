//! Whether rows of the tables are those of a sound institution, by any version; and the rows of its accounts.

ghost use Rattle.std.specs.Prelude.{◌≡◌, ◌↔◌, ℕ, IsTrue, IfOk, IfErr};
ghost use Rattle.mf_base.specs.declared.fault.Fault.TheVariants.{F20};
ghost use Rattle.mf_model.specs.Institution.{Institution};
ghost use Rattle.mf_model.specs.Sound.{IsSound};
ghost use Rattle.mf_store_values.specs.Flat.{tables_of};
ghost use Rattle.mf_store_sound.specs.Schemas.{tables_under, without_accounts};
ghost use Rattle.mf_store_sound.specs.Sound.{AreOfSoundAt, AreUnder};

use crate::callers::are_by_staff;
use crate::meta::business_day;
use crate::numbered::are_numbered;
use crate::office_parts::{Belongings, are_office_parts};
use crate::offices::are_offices;
use crate::receipts::are_receipts;
use crate::tables::{Tables, has_accounts};
use mf_base::Fault;
use mf_model::MOST_IN_CATALOGUE;
use mf_store_schema::{InstalmentRow, ShareRow, Version};
use mf_store_values::{are_accounts, rows_of_accounts};
use std::alloc::Global;

/// Whether there is a sound institution whose rows these are, with this schema's number. It does not check the rows of
/// accounts.
fn are_under(alloc: Global, schema: u32, tables: &Tables) -> Result<bool, Fault>
    ensures exact { IfOk result (λ yes. IsTrue yes ↔ AreUnder schema tables.now) }
    ensures gives_up { IfErr result (λ fault. fault ≡ F20) }
{
    let meta = tables.meta.as_slice();
    let offices = tables.offices.as_slice();
    let staff = tables.staff.as_slice();
    let clients = tables.clients.as_slice();
    let charges = tables.charges.as_slice();
    let products = tables.products.as_slice();
    let loans = tables.loans.as_slice();
    let entries = tables.entries.as_slice();
    let receipts = tables.receipts.as_slice();
    let Some(today) = business_day(schema, meta) else {
        return Ok(false);
    };
    if !are_numbered((), charges, MOST_IN_CATALOGUE) {
        return Ok(false);
    }
    if !are_numbered(charges, products, MOST_IN_CATALOGUE) {
        return Ok(false);
    }
    if !are_offices(alloc, offices)? {
        return Ok(false);
    }
    let belongings = Belongings {
        staff,
        clients,
        loans,
        entries,
    };
    if !are_office_parts(today, products, offices, belongings) {
        return Ok(false);
    }
    if !are_by_staff(staff, entries) {
        return Ok(false);
    }
    are_receipts(alloc, receipts, entries)
}

/// Whether there is a sound institution whose rows these are, by the tables of a version. The error is F20, out of
/// memory.
pub fn is_sound(alloc: Global, version: Version, tables: &Tables) -> Result<bool, Fault>
    ensures exact { IfOk result (λ yes. IsTrue yes ↔ AreOfSoundAt version tables.now) }
    ensures gives_up { IfErr result (λ fault. fault ≡ F20) }
{
    if !are_under(alloc, version.number(), tables)? {
        return Ok(false);
    }
    if !has_accounts(version) {
        return Ok(tables.has_no_accounts());
    }
    are_accounts(
        alloc,
        &tables.charges,
        &tables.products,
        &tables.loans,
        &tables.entries,
        &tables.instalments,
        &tables.shares,
    )
}

/// The rows of instalments and of shares that the accounts of an institution have, by its other rows under any
/// schema's number. The error is F20, out of memory.
pub fn account_rows(
    alloc: Global,
    tables: &Tables,
) -> Result<(Vec<InstalmentRow>, Vec<ShareRow>), Fault>
    ensures under { IfOk result (λ rows. (schema : ℕ) (i : Institution) → IsSound i →
        tables_under schema i ≡ without_accounts tables.now →
        (rows.0.items ≡ (tables_of i).instalments) × (rows.1.items ≡ (tables_of i).shares)) }
    ensures gives_up { IfErr result (λ fault. fault ≡ F20) }
{
    rows_of_accounts(
        alloc,
        &tables.charges,
        &tables.products,
        &tables.loans,
        &tables.entries,
    )
}
