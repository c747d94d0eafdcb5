//! The rows of charges and products.

ghost use Rattle.std.specs.Prelude.{◌≡◌, false, IfOk, IfErr};
ghost use Rattle.mf_base.specs.declared.fault.Fault.TheVariants.{F20};
ghost use Rattle.mf_store_values.specs.Flat.{charge_as, product_as};

use mf_base::{Choice, Fault, Name};
use mf_catalog::{Calc, ChargeKind, ProductMembers};
use mf_store_schema::{ChargeRow, ProductRow, Text};
use mf_store_values::to_signed;

/// The row of a charge.
pub fn charge_row(
    number: u32,
    name: Name,
    kind: ChargeKind,
    calc: Calc,
    value: u64,
) -> Result<ChargeRow, Fault>
    ensures row { IfOk result (λ row. row ≡ charge_as number (record {
      name = name;
      kind = kind;
      calc = calc;
      value = value;
    })) }
    ensures gives_up { IfErr result (λ fault. fault ≡ F20) }
{
    let cents = to_signed(value)?;
    Ok(ChargeRow {
        number,
        name: Text::of_name(name),
        kind: kind.number(),
        calc: calc.number(),
        value: cents,
    })
}

/// The row of a new product.
pub fn product_row(number: u32, members: ProductMembers) -> Result<ProductRow, Fault>
    ensures row { IfOk result (λ row. row ≡ product_as number (record { members = members; retired = false })) }
    ensures gives_up { IfErr result (λ fault. fault ≡ F20) }
{
    let min_principal = to_signed(members.min_principal)?;
    let max_principal = to_signed(members.max_principal)?;
    Ok(ProductRow {
        number,
        name: Text::of_name(members.name),
        method: members.method.number(),
        rate: members.rate,
        frequency: members.freq.number(),
        every: members.every,
        principal_grace: members.principal_grace,
        interest_grace: members.interest_grace,
        min_principal,
        max_principal,
        min_periods: members.min_periods,
        max_periods: members.max_periods,
        strategy: members.strategy.number(),
        disbursement_charge: members.disbursement_charge,
        instalment_charge: members.instalment_charge,
        overdue_charge: members.overdue_charge,
        retired: 0,
    })
}

/// The row of the same product, retired.
pub fn retire(row: ProductRow) -> ProductRow
    ensures { result ≡ record row { retired = 1 } }
{
    let mut row = row;
    row.retired = 1;
    row
}
