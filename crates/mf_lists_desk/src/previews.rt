//! What a loan would be, by the catalogue of a store.

ghost use Rattle.std.specs.Prelude.{◌≤◌, ◌≢◌, IfErr};
ghost use Rattle.mf_base.specs.DayText.{last_entered_day};
ghost use Rattle.mf_model.specs.Store.{Reads};
ghost use Rattle.mf_lists_desk.specs.Readings.{AnswersBy, charge_named_in, terms_told, preview_told};

use mf_base::{Day, Fault};
use mf_catalog::{ChargeDef, Terms, check_loan};
use mf_lists::{LoanPreview, preview_on_terms};
use mf_model::InstitutionStore;
use std::alloc::Global;

/// The charge that is named, where one is and is there.
fn named_charge<S: InstitutionStore>(
    alloc: Global,
    store: &mut S,
    named: Option<u32>,
) -> Result<Option<ChargeDef>, Fault>
    ensures { Reads S.stands S.clean S.leaves (charge_named_in named) store.old store.new result }
{
    match named {
        None => Ok(None),
        Some(number) => store.charge(alloc, number),
    }
}

/// The terms of a loan of a product. F4 where there is no such product, F7 where it is retired, F8 outside its limits.
fn terms<S: InstitutionStore>(
    alloc: Global,
    store: &mut S,
    product: u32,
    principal: u64,
    periods: u32,
) -> Result<Terms, Fault>
    ensures told { AnswersBy S.InstitutionStore (terms_told product principal periods) store.old store.new result }
    ensures refusal { IfErr result (λ f. f ≢ Fault.F19) }
{
    let found = store.product(alloc, product)?.ok_or(Fault::F4)?;
    check_loan(&found, principal, periods)?;
    let disbursement = named_charge(alloc, store, found.members.disbursement_charge)?;
    let instalment = named_charge(alloc, store, found.members.instalment_charge)?;
    let overdue = named_charge(alloc, store, found.members.overdue_charge)?;
    Ok(found.members.terms_with(disbursement, instalment, overdue))
}

/// What a loan of a product would be, paid out on a day; refused as its terms are.
pub fn preview<S: InstitutionStore>(
    alloc: Global,
    store: &mut S,
    product: u32,
    principal: u64,
    periods: u32,
    day: Day,
) -> Result<LoanPreview, Fault>
    requires { day ≤ last_entered_day }
    ensures told { AnswersBy S.InstitutionStore (preview_told product principal periods day) store.old store.new
        result }
    ensures refusal { IfErr result (λ f. f ≢ Fault.F19) }
{
    let terms = terms(alloc, store, product, principal, periods)?;
    preview_on_terms(alloc, &terms, principal, periods, day)
}
