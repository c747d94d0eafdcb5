//! What the rows of charges and products stand for. Their columns are read in one place, by a running store as by an
//! opening.

ghost use Rattle.std.specs.Prelude.{◌≡◌, ℕ, Some, IfSome, IfOk, IfErr};
ghost use Rattle.mf_base.specs.declared.fault.Fault.TheVariants.{F20};
ghost use Rattle.mf_model.specs.Institution.{ListedCharge, ListedProduct, charge_def, product_of};
ghost use Rattle.mf_store_values.specs.Decoded.{charge_columns_of, product_columns_of};
ghost use Rattle.mf_store_values.specs.Flat.{charge_as, product_as};

use crate::numbers::{amount_from, flag_from};
use crate::values::or_give_up;
use mf_base::{Choice, Fault, Freq, Name};
use mf_catalog::{Calc, ChargeDef, ChargeKind, Method, Product, ProductMembers, StrategyName};
use mf_store_schema::{ChargeRow, ProductRow};

/// What the numbers of a charge's row stand for, but for its own number.
#[derive(Clone, Copy)]
pub struct ChargeColumns {
    pub kind: ChargeKind,
    pub calc: Calc,
    /// Cents where it is flat, else hundredths of a percent.
    pub value: u64,
}

/// What the numbers of a row stand for, or None where they are those of no charge.
pub fn charge_columns(row: &ChargeRow) -> Option<ChargeColumns>
    ensures some { IfSome result (λ columns. (c : ListedCharge) × (charge_as row.now.number c ≡ row.now)
        × (columns ≡ charge_columns_of c)) }
    ensures every { (number : ℕ) (c : ListedCharge) → charge_as number c ≡ row.now
        → result ≡ Some (charge_columns_of c) }
{
    Some(ChargeColumns {
        kind: ChargeKind::from_number(row.kind)?,
        calc: Calc::from_number(row.calc)?,
        value: amount_from(row.value)?,
    })
}

impl ChargeColumns {
    /// The charge with these columns, of this number and name.
    pub(crate) fn charge(self, number: u32, name: Name) -> ChargeDef
        ensures { result ≡ record {
          number = number;
          name = name;
          kind = self.kind;
          calc = self.calc;
          value = self.value;
        } }
    {
        ChargeDef {
            number,
            name,
            kind: self.kind,
            calc: self.calc,
            value: self.value,
        }
    }
}

/// The charge of a row.
pub fn charge_from(row: ChargeRow) -> Result<ChargeDef, Fault>
    ensures charge { IfOk result (λ charge. (number : ℕ) (c : ListedCharge) → row ≡ charge_as number c
        → charge ≡ charge_def number c) }
    ensures gives_up { IfErr result (λ fault. fault ≡ F20) }
{
    let columns = or_give_up(charge_columns(&row))?;
    Ok(columns.charge(row.number, row.name.into_name()))
}

/// What the numbers of a product's row stand for, where they aren't kept as they are.
#[derive(Clone, Copy)]
pub struct ProductColumns {
    pub method: Method,
    pub freq: Freq,
    pub strategy: StrategyName,
    /// Cents.
    pub min_principal: u64,
    /// Cents.
    pub max_principal: u64,
    pub retired: bool,
}

/// What the numbers of a row stand for, or None where they are those of no product.
pub fn product_columns(row: &ProductRow) -> Option<ProductColumns>
    ensures some { IfSome result (λ columns. (p : ListedProduct) × (product_as row.now.number p ≡ row.now)
        × (columns ≡ product_columns_of p)) }
    ensures every { (number : ℕ) (p : ListedProduct) → product_as number p ≡ row.now
        → result ≡ Some (product_columns_of p) }
{
    Some(ProductColumns {
        method: Method::from_number(row.method)?,
        freq: Freq::from_number(row.frequency)?,
        strategy: StrategyName::from_number(row.strategy)?,
        min_principal: amount_from(row.min_principal)?,
        max_principal: amount_from(row.max_principal)?,
        retired: flag_from(row.retired)?,
    })
}

/// The product of a row.
pub fn product_from(row: ProductRow) -> Result<Product, Fault>
    ensures product { IfOk result (λ product. (number : ℕ) (p : ListedProduct) → row ≡ product_as number p
        → product ≡ product_of number p) }
    ensures gives_up { IfErr result (λ fault. fault ≡ F20) }
{
    let columns = or_give_up(product_columns(&row))?;
    Ok(Product {
        number: row.number,
        members: ProductMembers {
            name: row.name.into_name(),
            method: columns.method,
            rate: row.rate,
            freq: columns.freq,
            every: row.every,
            principal_grace: row.principal_grace,
            interest_grace: row.interest_grace,
            min_principal: columns.min_principal,
            max_principal: columns.max_principal,
            min_periods: row.min_periods,
            max_periods: row.max_periods,
            strategy: columns.strategy,
            disbursement_charge: row.disbursement_charge,
            instalment_charge: row.instalment_charge,
            overdue_charge: row.overdue_charge,
        },
        retired: columns.retired,
    })
}
