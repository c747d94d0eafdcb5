//! Whether a product may be added, whether it lends so much for so long, and the terms that it gives.

ghost use Rattle.std.specs.Prelude.{◌≡◌, ◌⊎◌, ℕ, cond, option_map, true, Ok, Err, IfOk, IfErr};
ghost use Rattle.mf_base.specs.declared.fault.Fault.{Fault};
ghost use Rattle.mf_base.specs.declared.fault.Fault.TheVariants.{F7, F8, F20};
ghost use Rattle.mf_catalog.specs.Product.{charge_at, charges_there, is_consistent, limits_agree, kinds_right};
ghost use Rattle.mf_catalog.specs.Product.{is_of_kind, lending, charge_of, terms_of};

use crate::charge::{ChargeDef, ChargeKind};
use crate::product::{Product, ProductMembers};
use crate::terms::Terms;
use mf_base::Fault;
use std::alloc::Global;

/// The charge of this number in a list of charges. It takes no memory.
fn find_charge(charges: &[ChargeDef], number: u32) -> Option<&ChargeDef>
    ensures { option_map (λ charge. charge.now) result ≡ charge_at charges.now number }
{
    charges.iter().find(|charge| charge.number == number)
}

/// Whether a charge is there and has a kind, where one is named.
fn is_kind_right(charges: &[ChargeDef], kind: ChargeKind, named: Option<u32>) -> bool
    ensures { result ≡ is_of_kind (charge_at charges.now) kind named }
{
    match named {
        None => true,
        Some(number) => match find_charge(charges, number) {
            Some(charge) => charge.kind == kind,
            None => false,
        },
    }
}

/// Whether each least limit is at most its greatest, and both graces are below the least number of periods.
fn do_limits_agree(members: &ProductMembers) -> bool
    ensures { result ≡ limits_agree members.now }
{
    members.min_principal <= members.max_principal
        && members.min_periods <= members.max_periods
        && (members.principal_grace < members.min_periods
            && members.interest_grace < members.min_periods)
}

/// Checks that a product is consistent: each least limit is at most its greatest, both graces are below the least
/// number of periods, and each charge that it names has the kind that its place asks. F8 where it isn't. The charges
/// hold those that the product names. It takes no memory.
pub fn check_product(members: &ProductMembers, charges: &[ChargeDef]) -> Result<(), Fault>
    requires named { charges_there (charge_at charges.now) members.now ≡ true }
    ensures { result ≡ cond (is_consistent (charge_at charges.now) members.now) (Ok tt) (Err F8) }
{
    let kinds_right = is_kind_right(
        charges,
        ChargeKind::Disbursement,
        members.disbursement_charge,
    ) && (is_kind_right(charges, ChargeKind::Instalment, members.instalment_charge)
        && is_kind_right(charges, ChargeKind::Overdue, members.overdue_charge));
    if do_limits_agree(members) && kinds_right {
        Ok(())
    } else {
        Err(Fault::F8)
    }
}

/// Whether a product lends a principal, in cents, for a number of periods: F7 where it is retired, then F8 outside its
/// limits. It takes no memory.
pub fn check_loan(product: &Product, principal: u64, periods: u32) -> Result<(), Fault>
    ensures { result ≡ lending product.now principal periods }
{
    if product.retired {
        return Err(Fault::F7);
    }
    let members = &product.members;
    if members.min_principal <= principal
        && principal <= members.max_principal
        && (members.min_periods <= periods && periods <= members.max_periods)
    {
        Ok(())
    } else {
        Err(Fault::F8)
    }
}

/// A copy of the charge that is named, if one is.
fn copy_named(charges: &[ChargeDef], named: Option<u32>) -> Result<Option<ChargeDef>, Fault>
    ensures ok { IfOk result (λ charge. charge ≡ charge_of (charge_at charges.now) named) }
    ensures err { IfErr result (λ fault. fault ≡ F20) }
{
    match named {
        None => Ok(None),
        Some(number) => match find_charge(charges, number) {
            None => Ok(None),
            Some(charge) => Ok(Some(charge.clone()?)),
        },
    }
}

/// The terms that a product gives a loan, whether it is retired or not and whatever its limits are: those of a loan
/// that stands. The charges hold those that the product names. F20 when out of memory.
pub fn terms_of(product: &Product, charges: &[ChargeDef]) -> Result<Terms, Fault>
    requires named { charges_there (charge_at charges.now) product.now.members ≡ true }
    ensures ok { IfOk result (λ terms. terms ≡ terms_of (charge_at charges.now) product.now.members) }
    ensures err { IfErr result (λ fault. fault ≡ F20) }
{
    let members = &product.members;
    let disbursement = copy_named(charges, members.disbursement_charge)?;
    let instalment = copy_named(charges, members.instalment_charge)?;
    let overdue = copy_named(charges, members.overdue_charge)?;
    Ok(members.terms_with(disbursement, instalment, overdue))
}

/// The terms of a new loan of a principal, in cents, for a number of periods: F7 where the product is retired, then F8
/// outside its limits, both before any memory is taken; then the terms, or F20 when out of memory. The charges hold
/// those that the product names.
pub fn terms_for(
    product: &Product,
    charges: &[ChargeDef],
    principal: u64,
    periods: u32,
) -> Result<Terms, Fault>
    requires named { charges_there (charge_at charges.now) product.now.members ≡ true }
    ensures ok { IfOk result (λ terms. (lending product.now principal periods ≡ Ok tt)
        × (terms ≡ terms_of (charge_at charges.now) product.now.members)) }
    ensures refused { (fault : Fault) → lending product.now principal periods ≡ Err fault → result ≡ Err fault }
    ensures err { IfErr result (λ fault. (lending product.now principal periods ≡ Err fault)
        ⊎ ((lending product.now principal periods ≡ Ok tt) × (fault ≡ F20))) }
{
    check_loan(product, principal, periods)?;
    terms_of(product, charges)
}
