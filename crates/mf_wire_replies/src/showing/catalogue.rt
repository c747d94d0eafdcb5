//! Charges and products as JSON.

ghost use Rattle.std.specs.Prelude.{◌≡◌, IfOk, IfErr};
ghost use Rattle.serde_json.specs.View.{members_view};
ghost use Rattle.mf_model.specs.declared.reply.Reply.TheVariants.{ChargeShown, ProductShown};
ghost use Rattle.mf_wire_replies.specs.Shown.{IsBodyOf};
ghost use Rattle.mf_wire_replies.specs.Catalogue.{product_end, product_rest};

use super::Body;
use super::members::{Members, whole_or_null};
use mf_base::{Choice, Fault};
use mf_catalog::{ChargeDef, Product};
use serde_json::Value;
use std::alloc::{AllocError, Global};

/// A charge.
pub fn charge_shown(alloc: Global, charge: &ChargeDef) -> Result<Body, Fault>
    ensures ok { IfOk result (IsBodyOf (ChargeShown charge.now)) }
    ensures err { IfErr result (λ f. f ≡ Fault.F20) }
{
    let calc = charge.calc.name();
    let kind = charge.kind.name();
    let mut members = Members::new(alloc);
    members.put_whole(alloc, "value", charge.value)?;
    members.put_text(alloc, "name", charge.name.as_str())?;
    members.put_text(alloc, "kind", kind)?;
    members.put_whole(alloc, "charge", charge.number as u64)?;
    members.put_text(alloc, "calc", calc)?;
    Ok(Body::Value(members.into_value()))
}

/// A product's members from `overdue_charge` on.
fn product_end(alloc: Global, product: &Product) -> Result<Members, AllocError>
    ensures { IfOk result (λ members. members_view members.map.entries ≡ product_end product.now) }
{
    let lent_by = &product.members;
    let mut members = Members::new(alloc);
    members.put_text(alloc, "strategy", lent_by.strategy.name())?;
    members.put(alloc, "retired", Value::Bool(product.retired))?;
    members.put_whole(alloc, "rate", lent_by.rate as u64)?;
    members.put_whole(alloc, "product", product.number as u64)?;
    members.put_whole(alloc, "principal_grace", lent_by.principal_grace as u64)?;
    let charge = whole_or_null(lent_by.overdue_charge);
    members.put(alloc, "overdue_charge", charge)?;
    Ok(members)
}

/// A product's members from `max_periods` on.
fn product_rest(alloc: Global, product: &Product) -> Result<Members, AllocError>
    ensures { IfOk result (λ members. members_view members.map.entries ≡ product_rest product.now) }
{
    let lent_by = &product.members;
    let mut members = product_end(alloc, product)?;
    members.put_text(alloc, "name", lent_by.name.as_str())?;
    members.put_whole(alloc, "min_principal", lent_by.min_principal)?;
    members.put_whole(alloc, "min_periods", lent_by.min_periods as u64)?;
    members.put_text(alloc, "method", lent_by.method.name())?;
    members.put_whole(alloc, "max_principal", lent_by.max_principal)?;
    members.put_whole(alloc, "max_periods", lent_by.max_periods as u64)?;
    Ok(members)
}

/// A product.
pub fn product_shown(alloc: Global, product: &Product) -> Result<Body, Fault>
    ensures ok { IfOk result (IsBodyOf (ProductShown product.now)) }
    ensures err { IfErr result (λ f. f ≡ Fault.F20) }
{
    let lent_by = &product.members;
    let mut members = product_rest(alloc, product)?;
    members.put_whole(alloc, "interest_grace", lent_by.interest_grace as u64)?;
    let charge = whole_or_null(lent_by.instalment_charge);
    members.put(alloc, "instalment_charge", charge)?;
    members.put_text(alloc, "frequency", lent_by.freq.name())?;
    members.put_whole(alloc, "every", lent_by.every as u64)?;
    let charge = whole_or_null(lent_by.disbursement_charge);
    members.put(alloc, "disbursement_charge", charge)?;
    Ok(Body::Value(members.into_value()))
}
