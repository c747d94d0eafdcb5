//! The terms of a product, by the rows of the catalogue.

ghost use Rattle.std.specs.Prelude.{◌≡◌, ℕ, Some, IfOk, IfErr};
ghost use Rattle.mf_base.specs.declared.fault.Fault.TheVariants.{F20};
ghost use Rattle.mf_catalog.specs.Product.{charge_of, terms_of};
ghost use Rattle.mf_model.specs.Accounts.{terms_in};
ghost use Rattle.mf_model.specs.Institution.{Catalogue, ListedCharge, ListedProduct, charge_def};
ghost use Rattle.mf_model.specs.Institution.{charge_in};
ghost use Rattle.mf_store_values.specs.Flat.{charge_as, product_as, numbered_from};

use crate::catalogue::{charge_columns, product_columns};
use crate::row_numbers::row_numbered;
use mf_base::{Fault, Name};
use mf_catalog::{ChargeDef, Terms};
use mf_store_schema::{ChargeRow, ProductRow};
use std::alloc::Global;

/// The charge of a row under its number, or None where it is that of none.
fn charge_def(alloc: Global, number: u32, row: &ChargeRow) -> Result<Option<ChargeDef>, Fault>
    ensures charge { IfOk result (λ found. (c : ListedCharge) → charge_as number c ≡ row.now
        → found ≡ Some (charge_def number c)) }
    ensures gives_up { IfErr result (λ fault. fault ≡ F20) }
{
    let name = Name::new(String::from_str(alloc, row.name.as_str())?);
    match charge_columns(row) {
        Some(columns) => Ok(Some(columns.charge(number, name))),
        None => Ok(None),
    }
}

/// The charge that a product names, if it names one that is there.
fn named_charge(
    alloc: Global,
    charges: &[ChargeRow],
    named: Option<u32>,
) -> Result<Option<ChargeDef>, Fault>
    ensures charge { IfOk result (λ found. (k : Catalogue) → numbered_from charge_as 1 k.charges ≡ charges.now →
        found ≡ charge_of (charge_in k) named) }
    ensures gives_up { IfErr result (λ fault. fault ≡ F20) }
{
    let Some(number) = named else {
        return Ok(None);
    };
    match row_numbered(charges, number) {
        Some(row) => charge_def(alloc, number, row),
        None => Ok(None),
    }
}

/// The terms that a product's row gives with these charges, or None where it is a row of no product.
fn terms_with(
    row: &ProductRow,
    disbursement: Option<ChargeDef>,
    instalment: Option<ChargeDef>,
    overdue: Option<ChargeDef>,
) -> Option<Terms>
    ensures { (k : Catalogue) (number : ℕ) (p : ListedProduct) → product_as number p ≡ row.now →
        disbursement ≡ charge_of (charge_in k) row.now.disbursement_charge →
        instalment ≡ charge_of (charge_in k) row.now.instalment_charge →
        overdue ≡ charge_of (charge_in k) row.now.overdue_charge →
        result ≡ Some (terms_of (charge_in k) p.members) }
{
    let columns = product_columns(row)?;
    Some(Terms {
        method: columns.method,
        rate: row.rate,
        freq: columns.freq,
        every: row.every,
        principal_grace: row.principal_grace,
        interest_grace: row.interest_grace,
        strategy: columns.strategy,
        disbursement,
        instalment,
        overdue,
    })
}

/// The terms that the product of this number gives its loans, or None where it is not there.
pub(crate) fn terms_of(
    alloc: Global,
    charges: &[ChargeRow],
    products: &[ProductRow],
    product: u32,
) -> Result<Option<Terms>, Fault>
    ensures terms { IfOk result (λ found. (k : Catalogue) → numbered_from charge_as 1 k.charges ≡ charges.now →
        numbered_from product_as 1 k.products ≡ products.now → found ≡ terms_in k product) }
    ensures gives_up { IfErr result (λ fault. fault ≡ F20) }
{
    let Some(row) = row_numbered(products, product) else {
        return Ok(None);
    };
    let disbursement = named_charge(alloc, charges, row.disbursement_charge)?;
    let instalment = named_charge(alloc, charges, row.instalment_charge)?;
    let overdue = named_charge(alloc, charges, row.overdue_charge)?;
    let terms = terms_with(row, disbursement, instalment, overdue);
    Ok(terms)
}
