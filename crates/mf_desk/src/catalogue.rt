//! The catalogue, which all offices share: the business day and charges.

ghost use Rattle.std.specs.Prelude.{◌≢◌, IfErr};
ghost use Rattle.mf_model.specs.Catalogue.{set_day, add_charge, on_catalogue};
ghost use Rattle.mf_desk.specs.Answers.{Decides, in_catalogue};

use crate::decision::Decision;
use crate::numbers::next_in_catalogue;
use crate::products::{add_product, retire_product};
use mf_base::{Day, Fault};
use mf_catalog::{Calc, ChargeKind};
use mf_model::{CatalogueRequest, Commit, InstitutionStore, Reply};
use mf_office::Name;
use std::alloc::Global;

/// Decides a request on the catalogue.
pub fn on_catalogue<S: InstitutionStore>(
    alloc: Global,
    store: &mut S,
    asked: CatalogueRequest,
) -> Result<Decision, Fault>
    ensures decides { Decides S.InstitutionStore (in_catalogue (on_catalogue asked)) store.old store.new result }
    ensures refusal { IfErr result (λ f. f ≢ Fault.F19) }
{
    match asked {
        CatalogueRequest::ShowDay => {
            let day = store.business_day(alloc)?;
            Ok(Decision::show(Reply::DayShown(day)))
        }
        CatalogueRequest::SetDay { day } => set_day(alloc, store, day),
        CatalogueRequest::AddCharge {
            name,
            kind,
            calc,
            value,
        } => add_charge(alloc, store, name, kind, calc, value),
        CatalogueRequest::ShowCharge { charge } => {
            let charge = store.charge(alloc, charge)?.ok_or(Fault::F4)?;
            Ok(Decision::show(Reply::ChargeShown(charge)))
        }
        CatalogueRequest::AddProduct { members } => add_product(alloc, store, members),
        CatalogueRequest::ShowProduct { product } => {
            let product = store.product(alloc, product)?.ok_or(Fault::F4)?;
            Ok(Decision::show(Reply::ProductShown(product)))
        }
        CatalogueRequest::RetireProduct { product } => retire_product(alloc, store, product),
    }
}

fn set_day<S: InstitutionStore>(alloc: Global, store: &mut S, day: Day) -> Result<Decision, Fault>
    ensures decides { Decides S.InstitutionStore (in_catalogue (set_day day)) store.old store.new result }
    ensures refusal { IfErr result (λ f. f ≢ Fault.F19) }
{
    if store.business_day(alloc)? >= day {
        return Err(Fault::F17);
    }
    Ok(Decision::change(Commit::SetDay { day }, Reply::DaySet(day)))
}

fn add_charge<S: InstitutionStore>(
    alloc: Global,
    store: &mut S,
    name: Name,
    kind: ChargeKind,
    calc: Calc,
    value: u64,
) -> Result<Decision, Fault>
    ensures decides { Decides S.InstitutionStore (in_catalogue (add_charge (record {
      name = name;
      kind = kind;
      calc = calc;
      value = value;
    }))) store.old store.new result }
    ensures refusal { IfErr result (λ f. f ≢ Fault.F19) }
{
    let counts = store.catalogue_counts(alloc)?;
    let number = next_in_catalogue(counts.charges)?;
    Ok(Decision::change(
        Commit::AddCharge {
            name,
            kind,
            calc,
            value,
        },
        Reply::ChargeMade(number),
    ))
}
