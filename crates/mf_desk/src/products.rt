//! Products, which all offices share.

ghost use Rattle.std.specs.Prelude.{◌≡◌, [], ◌++◌, IfOk, IfErr, ◌≢◌};
ghost use Rattle.mf_base.specs.declared.fault.Fault.TheVariants.{F20};
ghost use Rattle.mf_model.specs.Catalogue.{make_product, add_product, retire_product};
ghost use Rattle.mf_desk.specs.Answers.{Asks, Decides, in_catalogue};
ghost use Rattle.mf_desk.specs.Charges.{number_of, charge_named, charge_before, list_of};

use crate::decision::Decision;
use crate::numbers::next_in_catalogue;
use mf_base::Fault;
use mf_catalog::{ChargeDef, ProductMembers, check_product};
use mf_model::{Commit, InstitutionStore, Reply};
use std::alloc::Global;

/// The charge that is named, if one is; F4 where it isn't there.
fn find_charge<S: InstitutionStore>(
    alloc: Global,
    store: &mut S,
    named: Option<u32>,
) -> Result<Option<ChargeDef>, Fault>
    ensures found { Asks S.InstitutionStore (charge_named named) store.old store.new result }
    ensures numbered { IfOk result (λ charge. number_of charge ≡ named) }
    ensures refusal { IfErr result (λ f. f ≢ Fault.F19) }
{
    let Some(number) = named else {
        return Ok(None);
    };
    let mut charge = store.charge(alloc, number)?.ok_or(Fault::F4)?;
    // `check_product` looks charges up by number, and its safety must not rest on what a store returns.
    charge.number = number;
    Ok(Some(charge))
}

/// Adds a charge, if there is one, to the end of a list.
fn push_charge(charges: &mut Vec<ChargeDef>, charge: Option<ChargeDef>) -> Result<(), Fault>
    ensures ok { IfOk result (λ u. charges.new.items ≡ charges.old.items ++ charge_before charge []) }
    ensures err { IfErr result (λ fault. fault ≡ F20) }
{
    match charge {
        None => Ok(()),
        Some(charge) => Ok(charges.push(charge)?),
    }
}

/// The charges that there are, of three.
fn list_charges(
    alloc: Global,
    disbursement: Option<ChargeDef>,
    instalment: Option<ChargeDef>,
    overdue: Option<ChargeDef>,
) -> Result<Vec<ChargeDef>, Fault>
    ensures ok { IfOk result (λ charges. charges.items ≡ list_of disbursement instalment overdue) }
    ensures err { IfErr result (λ fault. fault ≡ F20) }
{
    let mut charges = Vec::new(alloc);
    push_charge(&mut charges, disbursement)?;
    push_charge(&mut charges, instalment)?;
    push_charge(&mut charges, overdue)?;
    Ok(charges)
}

/// The next product, of members that are consistent.
fn make_product<S: InstitutionStore>(
    alloc: Global,
    store: &mut S,
    members: ProductMembers,
) -> Result<Decision, Fault>
    ensures decides { Decides S.InstitutionStore (in_catalogue (make_product members)) store.old store.new result }
    ensures refusal { IfErr result (λ f. f ≢ Fault.F19) }
{
    let counts = store.catalogue_counts(alloc)?;
    let number = next_in_catalogue(counts.products)?;
    Ok(Decision::change(Commit::AddProduct { members }, Reply::ProductMade(number)))
}

/// A new product: F4 where a charge that it names is missing, then F8 where it is not consistent.
pub fn add_product<S: InstitutionStore>(
    alloc: Global,
    store: &mut S,
    members: ProductMembers,
) -> Result<Decision, Fault>
    ensures decides { Decides S.InstitutionStore (in_catalogue (add_product members)) store.old store.new result }
    ensures refusal { IfErr result (λ f. f ≢ Fault.F19) }
{
    let disbursement = find_charge(alloc, store, members.disbursement_charge)?;
    let instalment = find_charge(alloc, store, members.instalment_charge)?;
    let overdue = find_charge(alloc, store, members.overdue_charge)?;
    let charges = list_charges(alloc, disbursement, instalment, overdue)?;
    check_product(&members, charges.as_slice())?;
    make_product(alloc, store, members)
}

pub fn retire_product<S: InstitutionStore>(
    alloc: Global,
    store: &mut S,
    product: u32,
) -> Result<Decision, Fault>
    ensures decides { Decides S.InstitutionStore (in_catalogue (retire_product product)) store.old store.new result }
    ensures refusal { IfErr result (λ f. f ≢ Fault.F19) }
{
    let found = store.product(alloc, product)?.ok_or(Fault::F4)?;
    if found.retired {
        return Err(Fault::F7);
    }
    Ok(Decision::change(
        Commit::RetireProduct { product },
        Reply::ProductRetired(product),
    ))
}
